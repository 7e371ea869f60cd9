// Words of one filter each: each modifier over each kind of attribute. Each row has the zone's rule, the word, and the
// tasks that a reading of the grammar by recursive descent in another language selects, or the kind and the number of the
// first bad word.
pub const WORDS: &str = "|description:milk|8
|description:|49
|description.none:milk|49
|description.any:milk|1235678
|description.is:milk|8
|description.equals:milk|8
|description.isnt:milk|12345679
|description.not:milk|12345679
|description.before:milk|Modifier 0
|description.below:milk|Modifier 0
|description.after:milk|Modifier 0
|description.above:milk|Modifier 0
|description.has:milk|13678
|description.contains:milk|13678
|description.hasnt:milk|2459
|description.startswith:milk|38
|description.left:milk|38
|description.endswith:milk|178
|description.right:milk|178
|description.word:milk|168
|description.noword:milk|234579
|description.like:milk|Modifier 0
|project:a.b|16
|project:|789
|project.none:a.b|789
|project.any:a.b|123456
|project.is:a.b|1
|project.isnt:a.b|23456789
|project.before:a.b|Modifier 0
|project.after:a.b|Modifier 0
|project.has:a.b|16
|project.hasnt:a.b|2345789
|project.left:a.b|16
|project.right:a.b|1
|project.word:a.b|16
|project.noword:a.b|2345789
|project.like:a.b|Modifier 0
|priority:H|1
|priority:|45679
|priority.none:H|45679
|priority.any:H|1238
|priority.is:H|1
|priority.isnt:H|23456789
|priority.before:H|Modifier 0
|priority.after:H|Modifier 0
|priority.has:H|1
|priority.hasnt:H|23456789
|priority.left:H|1
|priority.right:H|1
|priority.word:H|1
|priority.noword:H|23456789
|priority.like:H|Modifier 0
|due:2026-03-04|1256
|due:|3479
|due.none:2026-03-04|3479
|due.any:2026-03-04|12568
|due.is:2026-03-04|5
|due.equals:2026-03-04|5
|due.isnt:2026-03-04|12346789
|due.not:2026-03-04|12346789
|due.before:2026-03-04|
|due.below:2026-03-04|
|due.after:2026-03-04|1268
|due.above:2026-03-04|1268
|due.has:2026-03-04|Modifier 0
|due.contains:2026-03-04|Modifier 0
|due.hasnt:2026-03-04|Modifier 0
|due.startswith:2026-03-04|Modifier 0
|due.left:2026-03-04|Modifier 0
|due.endswith:2026-03-04|Modifier 0
|due.right:2026-03-04|Modifier 0
|due.word:2026-03-04|Modifier 0
|due.noword:2026-03-04|Modifier 0
|due.like:2026-03-04|Modifier 0
|status:pending|168
|status:|9
|status.none:pending|9
|status.any:pending|12345678
|status.is:pending|168
|status.isnt:pending|234579
|status.before:pending|Modifier 0
|status.has:pending|Modifier 0
|status.word:pending|Modifier 0
|status.like:pending|Modifier 0
|recur:weekly|Value 0
|recur:|1234679
|recur.none:weekly|1234679
|recur.any:weekly|58
|recur.is:weekly|Modifier 0
|recur.isnt:weekly|Modifier 0
|recur.before:weekly|Modifier 0
|recur.has:weekly|Modifier 0
|recur.word:weekly|Modifier 0
|recur.like:weekly|Modifier 0
|depends:3|6
|depends:|123459
|depends.none:3|123459
|depends.any:3|678
|depends.is:3|Modifier 0
|depends.isnt:3|Modifier 0
|depends.before:3|Modifier 0
|depends.has:3|Modifier 0
|depends.word:3|Modifier 0
|depends.like:3|Modifier 0
|parent:00000000-0000-4000-8000-000000000005|Attribute 0
|parent:|Attribute 0
|parent.none:00000000-0000-4000-8000-000000000005|12345679
|parent.any:00000000-0000-4000-8000-000000000005|8
|parent.is:00000000-0000-4000-8000-000000000005|Attribute 0
|parent.isnt:00000000-0000-4000-8000-000000000005|Attribute 0
|parent.before:00000000-0000-4000-8000-000000000005|Attribute 0
|parent.after:00000000-0000-4000-8000-000000000005|Attribute 0
|parent.has:00000000-0000-4000-8000-000000000005|Attribute 0
|parent.hasnt:00000000-0000-4000-8000-000000000005|Attribute 0
|parent.left:00000000-0000-4000-8000-000000000005|Attribute 0
|parent.right:00000000-0000-4000-8000-000000000005|Attribute 0
|parent.word:00000000-0000-4000-8000-000000000005|Attribute 0
|parent.noword:00000000-0000-4000-8000-000000000005|Attribute 0
|parent.like:00000000-0000-4000-8000-000000000005|Attribute 0
|uuid:00000000-0000-4000-8000-000000000003|3
|uuid:|Value 0
|uuid.any:00000000-0000-4000-8000-000000000003|Attribute 0
|uuid.is:00000000-0000-4000-8000-000000000003|Attribute 0
|uuid.has:00000000-0000-4000-8000-000000000003|Attribute 0
|tags:shop|Attribute 0
|tags:|Attribute 0
|tags.any:shop|Attribute 0
|tags.is:shop|Attribute 0
|tags.has:shop|Attribute 0
|description.is:|
|description.has:|1235678
|description.word:|6
|description.word:mil|
|description.word:bar|
|description.left:mil|38
|description.word:café|
|description.noword:milk.|12345789
|project:a|136
|project:ab|2
|project.is:a|3
|project.left:a|1236
|project.word:a|1346
|project.word:b|146
|project.has:.|146
|project.right:.b|1
|project.isnt:|123456789
|project.is:|
|priority:x|Value 0
|priority.is:x|Value 0
|priority.is:|8
|priority.isnt:|12345679
|priority.has:x|
|priority:L|3
|priority.word:|8
|due:never|Date 0
|due.is:never|Date 0
|due.before:|Date 0
|due.any:never|12568
|due.none:never|3479
|due.is:1772622000|1
|due.isnt:1772622000|23456789
|due.after:later|8
|due.before:today|
|due.before:tomorrow|1256
|due.after:eod|8
|due:eow|
|due:later|
|due.is:2026-03-04T11:00:00Z|1
|due.is:2026-03-04T11:00|1
|due.above:1h|28
|wait:|134569
|wait:now|28
|wait.before:now|7
|wait.after:now|2
|wait.is:now|8
|scheduled:today|28
|scheduled.below:now|2
|until.any:|5
|entry:2023-11-14|1
|entry.before:2023-11-15|1
|entry.none:|456789
|modified.any:|1
|modified:2026-03-04|1
|start.any:|6
|start.before:now|6
|end:2026-03-03|3
|end.after:2026-03-03|34
|end.none:|1256789
|status:waiting|2
|status:completed|3
|status:deleted|4
|status:recurring|5
|status:strange|Value 0
|status:Pending|Value 0
|status.isnt:waiting|13456789
|status.is:other|Value 0
|recur:monthly|Value 0
|depends:1|7
|depends:2|
|depends:5|6
|depends:1-3|Value 0
|depends:1,3|Value 0
|depends:-3|Value 0
|depends:0|Value 0
|depends:1234567890|Value 0
|depends:00000000-0000-4000-8000-000000000001|6
|depends:00000000-0000-4000-8000-000000000099|6
|depends:0000000-0000-4000-8000-000000000001|Value 0
|uuid:00000000-0000-4000-8000-000000000007|7
|uuid:x|Value 0
|uuid:00000000-0000-4000-8000-000000000001,00000000-0000-4000-8000-000000000002|Value 0
|parent.any:x|8
|parent.none:|12345679
|parent:x|Attribute 0
|mask:--|Attribute 0
|mask.any:|Attribute 0
|imask.none:|Attribute 0
|urgency.above:1|Attribute 0
|id:1|Attribute 0
|id.is:1|Attribute 0
|tags.any:|Attribute 0
|foo:bar|
|foo.is:bar|
|project.is|
|project|
|project.a.b:x|Modifier 0
|.is:x|
|:x|";
