// Filters of several words, drawn from trees and then marred: each row has the zone's rule, the words, and the tasks
// that a reading of the grammar by recursive descent in another language selects, or the kind and the number of the
// first bad word.
pub const FILTERS: &str = "|(|End 1
|)|Bracket 0
|( )|Bracket 1
|!|End 1
|1 and|End 2
|1 xor )|Bracket 2
|( 1 and )|Value 3
|( 1|End 2
|( 1 ) )|Bracket 3
|and|Value 0
|xor 1|Value 0
|1 or and|Value 2
|! ! 1|3
|! 1 2|12456789
|1 ! 2|3
|1 2 and 2|
|1 -- 2|
|-- ( or|
|--|123456789
|1 ( 2 ) 3|
|1 or 2 xor 1 and 2|3
|( 1 or 2 ) xor ( 1 and 2 )|3
|1 or ( 2 xor 1 and 2 )|3
|( +PENDING or due:never ( )|Date 3
|due:never (|Date 0
|( due:never|Date 1
|! or|Value 1
|! )|Bracket 1
|( ! )|Value 2
|( or|Value 1
|! 2 7 6-9 and ( 8 2 and 8 1 2-2 )|
|( 6 and ( scheduled.any: or ( 00000000-0000-4000-8000-000000000001 4 7 or 6-9 ) ) xor 1-3|End 16
|3,7 ( project.is:a or +shop )|1
|( ( +shop or scheduled.any: ) ( recur.any: or due.before:tomorrow ) )|128
|! ( project.is:a due.before:tomorrow ) or 00000000-0000-4000-8000-000000000001 7|123456789
|-TAGGED xor milk or 2 3|14579
|! status:pending or milk|123456789
|1 and ( 3 or status:pending )|
|! ( depends:3 xor 8 2 )|123456789
|! ( 1-3 or 2 and ( status:pending and +shop ) )|2456789
|( due.before:tomorrow and project.is:a or 00000000-0000-4000-8000-000000000004 ) or 1-3|134
|! +PENDING or ( ! project:a xor ( status:pending xor depends:3 ) )|1234579
|( milk xor +WAITING ) or ( ! 00000000-0000-4000-8000-000000000008 or 4 ) status:pending|1234678
|4 7 and ( ( end.none: xor 2-2 ) and milk )|
|+shop +BLOCKING or +PENDING|168
|( ! +BLOCKED xor +BLOCKED )|123456789
|! ( ! ( 6 scheduled.any: and ( +BLOCKED or 1-3 ) ) and project: )|123456
|+BLOCKING xor ( +BLOCKED xor ( -shop and ( 3,7 3,7 1-3 xor ( 1 project:|End 16
|( ( project:a xor -TAGGED ) or +BLOCKED ) ( 2 or due:today ) xor 00000000-0000-4000-8000-000000000008|1568
|! ( ( +WAITING or -shop ) or ( 3,7 8 and 7 or ( +PENDING|End 16
|+WAITING ( 00000000-0000-4000-8000-000000000008 ( project:a and depends:3 ( +shop xor 8 ) ) )|
|8 6 6-9 and 00000000-0000-4000-8000-000000000004 4 2 project:a|
|( 6 xor 00000000-0000-4000-8000-000000000004 ) or -TAGGED|345689
|end.none: or ( milk or project.is:a )|123456789
|end.none: or -PENDING +PENDING|1256789
|( milk ( project.is:a xor 3 ) )|13
|( 4 or ( 2 1-3 or 4 ) ) or +PENDING|12368
|6 or ! 3,7 2-2 00000000-0000-4000-8000-000000000008|234567
|( ( 00000000-0000-4000-8000-000000000001 3 1 or ! end.none: or project: ) xor scheduled.any: ! end.none: )|134789
|end.none: xor ( ( +shop or project: ) and +shop xor +shop )|1256789
|due.before:tomorrow ( 00000000-0000-4000-8000-000000000008 or 2 ) priority:H|
|-shop or description.word:milk|13456789
|1-3 and 2 2-2 or ( milk xor 2 ) or ( 6 7 3 xor|End 16
|00000000-0000-4000-8000-000000000001 1-3 or ( ! 8 or ( +PENDING or 2-2 ) )|123456789
|! ( 8 and 2 7 8 )|12345789
|00000000-0000-4000-8000-000000000001 or +WAITING|12
|( end.none: or depends:3 ) +shop xor +BLOCKED and project.is:a|12
|( ! end.none: or ( project.is:a or milk ) )|134678
|3,7 4 and ( 7 priority:H or 00000000-0000-4000-8000-000000000008 or ( due:today xor -TAGGED or 00000000-0000-4000-8000-000000000008 )|End 16
|( 8 6 and +PENDING and 00000000-0000-4000-8000-000000000004 00000000-0000-4000-8000-000000000008 )|
|+WAITING or -shop and ! due.before:tomorrow xor 1|24789
|( ! -shop or 6-9 4 8 ) 1 1 3,7|19
|! ( ( +PENDING xor end.none: ) 4 )|13456789
|! ( 7 4 or ( due:today or ( 00000000-0000-4000-8000-000000000004 or ( 6 xor -TAGGED )|End 16
|( description.word:milk or ( +BLOCKED or -PENDING ) ) and 3 8 1|136
|! ( ( priority:H ( project: and -PENDING ) ) or 2-2 7 )|12345678
|3,7 or -TAGGED|135689
|4 7 or ( 1 00000000-0000-4000-8000-000000000001 end.none: xor -PENDING )|1234579
|recur.any: or 7|589
|! ! project:a ( recur.any: or ! +shop )|36
|! ( +BLOCKED or +BLOCKING or +BLOCKED priority:H )|234579
|end.none: and ( ( 2 2 xor 4 ) and 00000000-0000-4000-8000-000000000004 1-3 ) 8 +WAITING|
|( +BLOCKING or 4 7 2 and 3,7 or end.none: )|1256789
|( +WAITING or 4 2 7 ( project:a xor +PENDING ) ) 00000000-0000-4000-8000-000000000004 6-9 7|
|! ! +PENDING and due:today|16
|3,7 1-3 ( +BLOCKED and +shop milk )|
|! ( 00000000-0000-4000-8000-000000000001 or 4 1 xor +BLOCKING )|145789
|+BLOCKING or 3,7|169
|! ( 3 xor +shop ) and ( -TAGGED 1-3 )|3
|! +BLOCKING|2345789
|( -PENDING or 3 8 7 or 1 and ( priority:H xor 1-3 3,7 2-2 )|End 16
|1-3 4 ( milk or 7 2 project: or -PENDING )|123
|+BLOCKED and 6-9|6
|( +WAITING or 6-9 ) +BLOCKING|6
|( +WAITING 4 xor 00000000-0000-4000-8000-000000000001 ) and ( +BLOCKING or project:a )|1
|00000000-0000-4000-8000-000000000001 2-2 8 xor ! ( status:pending or 1-3 or 00000000-0000-4000-8000-000000000004 1 6 )|125679
|+WAITING or ( +BLOCKED or recur.any: xor +PENDING ) ( project.is:a and 3,7 ) xor 6|2
|2-2 or ! milk|259
|scheduled.any: and project:|8
|( milk and 1 )|3
|( 00000000-0000-4000-8000-000000000001 3,7 00000000-0000-4000-8000-000000000001 recur.any: ) xor ( 00000000-0000-4000-8000-000000000004 or \
( 00000000-0000-4000-8000-000000000004 1-3 or 3 4|End 16
|! ( ! due:today and project: )|123456
|! ( +PENDING ( -TAGGED priority:H ) )|123456789
|! ! ! depends:3 and ( +PENDING or due:today )|1258
|( +BLOCKING xor 2 ) and ( 00000000-0000-4000-8000-000000000004 and 3 )|
|( status:pending and ( ! ( ( 2 or end.none: 1-3 ) 00000000-0000-4000-8000-000000000008 ) -TAGGED )|End 16
|( +PENDING or -shop xor 3,7 ) or +shop|12345678
|( 2 1-3 or +BLOCKING ) and ( ( +BLOCKING xor 00000000-0000-4000-8000-000000000004 ) or 2 )|16
|! ( status:pending xor ( end.none: or 6 ) and 3,7 3 8 )|1234567
|3,7 and ( ! priority:H and ( project:a +BLOCKED ) )|
|( +WAITING xor ! 7 3 4 ) or 6|2345678
|! 3 3 and ( -shop 1-3 1 or 00000000-0000-4000-8000-000000000004 4 or ( +BLOCKED xor 1|End 16
|! ! end.none:|1256789
|( ! 1-3 xor +WAITING or ( 1-3 1-3 or 3,7 00000000-0000-4000-8000-000000000001 ) or ! +BLOCKING|End 16
|3 ! ( description.word:milk and end.none: and status:pending )|
|recur.any: xor ( 2 or due:today ) status:pending or -shop|134679
|00000000-0000-4000-8000-000000000008 and -TAGGED or depends:3|68
|! ( ! ( 6 project:a ) or +BLOCKING or ( project:a or 7 ) )|
|( 7 00000000-0000-4000-8000-000000000008 3 or status:pending or ! ( -TAGGED xor 6-9 and 3 ) )|1246789
|depends:3 xor ! ( due.before:tomorrow or -shop or ( 2-2 xor -PENDING +BLOCKED ) )|6
|( description.word:milk or due.before:tomorrow ) ( end.none: and ! 1 00000000-0000-4000-8000-000000000001 \
00000000-0000-4000-8000-000000000004 or priority:H or -shop|End 16
|( depends:3 or -TAGGED ) 8 and ( ( milk or 2-2 ) -TAGGED or -shop|End 16
|( -PENDING or 1 )|234579
|depends:3 xor ( ( recur.any: xor +shop ) xor ( due.before:tomorrow +BLOCKING ) )|258
|( +BLOCKING xor priority:H ) 00000000-0000-4000-8000-000000000001 6-9 1 ( ( due:today xor ( +PENDING xor recur.any:|End 16
|+PENDING ! +shop|68
|( ! ( +BLOCKING xor status:pending ) and ! +BLOCKED )|1234579
|! ( +PENDING or recur.any: 6 ) or ! description.word:milk xor priority:H|1234579
|! 1-3 8 and due.before:tomorrow|25
|end.none: or ! recur.any: or ( recur.any: or ( +WAITING or 6-9 00000000-0000-4000-8000-000000000008 ) )|123456789
|! ( ( scheduled.any: or -PENDING ) and 00000000-0000-4000-8000-000000000008 )|12345679
|( description.word:milk or -TAGGED xor +WAITING ) and ( due.before:tomorrow or ! 6-9 )|123568
|+WAITING xor 6 2-2 3,7|129
|00000000-0000-4000-8000-000000000008 status:pending xor ( ( 7 2-2 xor 00000000-0000-4000-8000-000000000008 2 ) or 1 7 6 xor|End 16
|due.before:tomorrow or recur.any: xor ( 8 and 1 and ( due.before:tomorrow xor +shop ) )|12568
|! ( 7 +WAITING )|123456789
|+PENDING or ( 7 xor -TAGGED ) and project.is:a|1368
|+BLOCKING +BLOCKED or +PENDING or ( +BLOCKING or +WAITING )|1268
|( description.word:milk or 3 ) and 3 depends:3 due.before:tomorrow|
|( 2 3 or -PENDING ) and ! -TAGGED|1247
|due:today or +WAITING|1256
|+BLOCKING or 3|16
|due.before:tomorrow or 6 3 7|12569
|( 3,7 xor ( 2-2 and 00000000-0000-4000-8000-000000000004 1-3 00000000-0000-4000-8000-000000000008 ) ) and ( \
00000000-0000-4000-8000-000000000001 00000000-0000-4000-8000-000000000004 00000000-0000-4000-8000-000000000001|End 16
|( description.word:milk and 4 or 1 or +PENDING 3,7 2 ) ( priority:H milk )|1
|+WAITING ( 6 xor +PENDING )|
|( -shop xor 00000000-0000-4000-8000-000000000004 ) and 2 and ( ( 8 xor depends:3 ) or (|End 16
|! ( ( 00000000-0000-4000-8000-000000000008 xor priority:H or scheduled.any: ) or priority:H )|3456789
|( status:pending xor +PENDING and 3 2 7 ) ( +PENDING or milk and due.before:tomorrow )|68
|! ( ! -PENDING xor project:a )|1245679
|-PENDING xor 7|23457
|3,7 3 1-3 and 6|
|( -TAGGED or status:pending ) depends:3 1-3 2-2|
|1-3 and 6 ( 6-9 and due.before:tomorrow ) xor project:|789
|( recur.any: or ( project: xor 6 00000000-0000-4000-8000-000000000008 ) or end.none: ) and ! ( +PENDING|End 16
|00000000-0000-4000-8000-000000000004 1-3 or ( recur.any: or 1 or description.word:milk or 3 )|134568
|2-2 4 7 and 1 1 xor ( ( 00000000-0000-4000-8000-000000000008 6 3,7 xor due:today ) project:|End 16
|-shop ( ( scheduled.any: xor 8 ) or ( recur.any: or scheduled.any: ) )|568
|2-2 and 2|
|! 2-2 xor ( -TAGGED xor -PENDING )|1359
|( ( +PENDING xor depends:3 8 ) and ( -TAGGED and ( scheduled.any: 3,7 3 6-9|End 16
|recur.any: and -PENDING|5
|! 3 or ! 2 7 4 ( 8 or -PENDING )|23456789
|( 6 8 and description.word:milk )|6
|! ( 1 00000000-0000-4000-8000-000000000008 or +shop xor 1 and ( -shop or 7 8 ) )|345679
|priority:H and +WAITING +shop or +BLOCKED and due.before:tomorrow|6
|( 00000000-0000-4000-8000-000000000001 3 xor project:a ) or due.before:tomorrow|12356
|project: xor -shop and ! depends:3|345
|! +BLOCKED|1234579
|! 00000000-0000-4000-8000-000000000008 and ( 2 and status:pending )|
|2-2 or ! ( +BLOCKING or 8 or 4 2-2 or ( -shop or 6 )|End 16
|due:today or 3|1256
|+BLOCKING xor +WAITING|126
|end.none: and 2-2 or -PENDING xor -TAGGED ( milk or recur.any: ) and project:a|245679
|( -TAGGED or 6 3 3,7 ) and ( +WAITING ( 2 4 and +BLOCKED )|End 16
|( ! ( +BLOCKING +BLOCKED ) ( 1 or 1 xor 6 ) )|3
|( ( 2 1 1 xor description.word:milk ) or scheduled.any: 8 1-3 )|1368
|! 00000000-0000-4000-8000-000000000004 00000000-0000-4000-8000-000000000001 00000000-0000-4000-8000-000000000004|2356789
|! ( 1 ( 00000000-0000-4000-8000-000000000001 or +BLOCKING ) )|123456789
|( status:pending or ( 7 2-2 2-2 or 1 ) xor description.word:milk and project.is:a and end.none:|End 16
|! ( 2-2 2-2 00000000-0000-4000-8000-000000000008 or +BLOCKED )|1234579
|( +BLOCKING or +BLOCKING ) and 1-3 and status:pending|1
|-PENDING or priority:H xor ( ( description.word:milk xor +BLOCKED ) xor 3,7 )|123457
|! ( 7 3,7 6-9 or ( ( milk xor 3,7 or +WAITING ) or (|End 16
|scheduled.any: xor ( +shop xor depends:3 or ( project: xor milk and -TAGGED ) )|136789
|1 or -TAGGED|35689
|! 6-9|1234578
|status:pending xor priority:H and +PENDING|68
|! ( status:pending or 7 00000000-0000-4000-8000-000000000008 6-9 ) xor +WAITING and ( 1-3 2 00000000-0000-4000-8000-000000000008 and|End 16
|( ! ( 1-3 -PENDING or 8 2-2 1-3 and due.before:tomorrow ) or 3,7 2 7|End 16
|7 or 1-3 7 4 or 6-9 1|12369
|project:a or 3,7 6-9 3 or -PENDING|12345679
|end.none: and 00000000-0000-4000-8000-000000000008|8
|! ( priority:H and project: )|123456789
|priority:H or description.word:milk or +WAITING|1268
|8 1-3 ( scheduled.any: or 00000000-0000-4000-8000-000000000004 )|
|! ( scheduled.any: or ( ( status:pending xor due:today ) and +shop priority:H ) )|1345679
|! ( -TAGGED or 4 6-9 )|147
|3 and ( 7 00000000-0000-4000-8000-000000000004 3 xor 3,7 ) xor +PENDING|168
|! ( ( 00000000-0000-4000-8000-000000000008 1 or 7 00000000-0000-4000-8000-000000000008 1-3 ) milk )|245679
|scheduled.any: ! ( priority:H or 3 +shop )|28
|( ( ! -PENDING and project.is:a xor ! due.before:tomorrow ) status:pending )|8
|+shop ( 3,7 4 3,7 and project:a ) ( +BLOCKING xor +BLOCKING )|
|! ( priority:H or +PENDING )|234579
|! +shop|3456789
|8 8 or ! ! ( 00000000-0000-4000-8000-000000000004 and ( 7 or end.none: ) ) or 4|26
|( 2-2 4 or 6-9 1-3 4 ) ( -TAGGED xor status:pending )|139
|! 3 ( +BLOCKED and status:pending ) and 1-3|
|+PENDING ( +WAITING and -shop ) -PENDING|
|( 3 00000000-0000-4000-8000-000000000001 00000000-0000-4000-8000-000000000004 and -shop ) xor description.word:milk|1468
|! ( +PENDING 1 )|123456789
|00000000-0000-4000-8000-000000000004 or 3,7 6|149
|! ( ( 8 xor due:today ) or 6 00000000-0000-4000-8000-000000000004 6-9 +WAITING or -shop ) or|End 16
|! ( ( end.none: xor ( 7 00000000-0000-4000-8000-000000000004 xor 6 6-9 00000000-0000-4000-8000-000000000001 ) or priority:H )|End 16
|( +shop xor project: ) or 3,7 or 4|12789
|! end.none: or ( project:a or 7 or project: ) ( +shop xor 1-3 )|34
|status:pending ( ( milk xor 4 1 6-9 ) or ( project.is:a or ! priority:H )|End 16
|6-9 ( milk or ( project.is:a or due:today ) ) and project:a|6
|! ( 7 xor +shop )|345678
|( 1-3 1-3 00000000-0000-4000-8000-000000000004 or due:today xor due.before:tomorrow or 3,7 ) or +PENDING|134689
|) 00000000-0000-4000-8000-000000000008|Bracket 0
|6-9 and -TAGGED --|69
|+BLOCKED or ( 3 or )|Value 5
|project.is:a xor 00000000-0000-4000-8000-000000000008 8 xor +shop 1 xor 1-3 )|Bracket 9
|+PENDING or ( scheduled.any: ( xor -PENDING|Value 5
|end.none: +BLOCKING 2-2 and ( depends:3 +BLOCKING and project.is:a )|
|! -- ( +BLOCKED or +BLOCKED )|
|( 7 or ( 8 xor priority:H ) ) ) and 4|Bracket 9
|-shop ! ( +PENDING 1 description.word:milk ) or +shop|123456789
|id:3 status:pending -PENDING 00000000-0000-4000-8000-000000000001 xor 7|Attribute 0
|or +BLOCKING|Value 0
|( +BLOCKING 7 ) or 6 3 2|1
|3,7 2 3,7 or 6|19
|! +WAITING project.like:a|Modifier 2
|( 4 -- 00000000-0000-4000-8000-000000000008 00000000-0000-4000-8000-000000000008 3,7 and -PENDING )|End 8
|( 00000000-0000-4000-8000-000000000008 8 ) xor 3 ) ! +BLOCKING|Bracket 6
|! ( description.word:milk ( priority:H due:never and recur.any: ) )|Date 5
|due.has:3 description.word:milk xor ! +BLOCKED ! project:a|Modifier 0
|! ( 00000000-0000-4000-8000-000000000008 xor 3,7 4 id:3 and scheduled.any: )|Attribute 6
|priority:H due:today or ( 1 2 00000000-0000-4000-8000-000000000008 or due:today )|123568
|6 xor ( +WAITING or 8 ) +BLOCKING|6
|( +BLOCKING +PENDING 2 or due.before:tomorrow ) or project:a or|End 10
|3,7 00000000-0000-4000-8000-000000000008 or end.none: or ( 1 or -shop due:never )|Date 9
|3 or +BLOCKING ! project:a|1
|! ( +WAITING milk or status:pending )|234579
|7 or 00000000-0000-4000-8000-000000000008 1-3 xor 6-9 --|1368
|and description.word:milk and due:today project.like:a|Value 0
|6 xor +shop --|12
|end.none: -- or|
|! project.is:a 00000000-0000-4000-8000-000000000001 and due.has:3 2 3,7|Modifier 4
|+WAITING recur:x ( -PENDING xor -- end.none: )|Value 1
|project.is:a xor ! +shop and 2 2 or 2-2|3
|2 1-3 xor ( ! priority:H and ( 6 xor scheduled.any: )|End 12
|project:a or ! ( project: ( xor 7 00000000-0000-4000-8000-000000000001 6 ) )|Value 6
|( 6 xor project: 00000000-0000-4000-8000-000000000008 ) and ! project:a due:never|Date 9
|end.none: +shop 7 ( 00000000-0000-4000-8000-000000000004 or 00000000-0000-4000-8000-000000000008|End 7
|! +PENDING or xor -shop|Value 3
|( +BLOCKING and priority:x ( ! ! end.none: or description.word:milk )|Value 3
|end.none: or 4 )|Bracket 3
|! 1 ( 1-3 and 00000000-0000-4000-8000-000000000008 )|
|+PENDING and 3,7 xor +shop 2|1
|! due:never 1 or ( 00000000-0000-4000-8000-000000000001 and -shop )|Date 1
|or 3 or scheduled.any:|Value 0
|! recur.any: id:3|Attribute 2
|! ( project.like:a +PENDING and +BLOCKED ) --|Modifier 2
|or 3 or -- ( end.none: or ! recur.any: )|Value 0
|( status:pending recur:x or priority:H )|Value 2
|priority:H priority:x and ( 2 1-3 3 or 00000000-0000-4000-8000-000000000001 due.has:3 )|Value 1
|( ( ! 6-9 due.has:3 or +BLOCKING ) and project.is:a|Modifier 4
|! ! ( project.is:a 3,7|End 5
|project:a or ( -- -shop or due.before:tomorrow or 1 )|End 9
|3 ! project.is:a xor or +BLOCKING|Value 4
|( 2-2 +BLOCKED and ( 3 and 7 ) )|
|+BLOCKED milk and +WAITING|
|) ( -shop 00000000-0000-4000-8000-000000000004 2 2 ) ( +BLOCKING or due:today )|Bracket 0
|! ( ( project: and 3 3,7 2-2 xor 2 ) and )|Value 12
|2 and ( ( 00000000-0000-4000-8000-000000000001 or project: priority:x ) end.none: )|Value 7
|( or end.none: ) and ( 00000000-0000-4000-8000-000000000004 2 -PENDING ) (|Value 1
|( 3,7 or -TAGGED +shop description.word:milk ) and -TAGGED|9
|6-9 project.like:a or 4|Modifier 1
|3 and +BLOCKED and ( -PENDING xor 3 2 ) due.before:tomorrow|
|2-2 and 3,7 7|
|+BLOCKING project:a and due:today xor 6 00000000-0000-4000-8000-000000000001|6
|3,7 +BLOCKED ) or +WAITING +PENDING|Bracket 2
|recur.any: +shop project.like:a +WAITING|Modifier 2
|! 6 -- +BLOCKING|
|! -- ( 00000000-0000-4000-8000-000000000001 and 6-9 )|
|! ( +BLOCKING and xor 1 and -- 2 )|Value 4
|2 and ( project:a and ( 3 4 and depends:3 ) -PENDING +WAITING )|
|00000000-0000-4000-8000-000000000008 ( and +WAITING due:never|Value 2
|and ! project:a due.has:3|Value 0
|project.like:a +BLOCKING 00000000-0000-4000-8000-000000000001 xor -PENDING +BLOCKED|Modifier 0
|due.has:3 ( 3 or -- 1-3 )|Modifier 0
|7 ( ! project.is:a priority:H ) or|End 7";
