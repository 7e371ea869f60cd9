// What `tw --help` and `tw --version` print.

/// What the program is, its commands, and where its data is.
pub const HELP: &str = "\
tw keeps tasks and working hours, for people who use several machines.

usage:
  tw task [FILTER] [COMMAND] [WORDS]
  tw                    show what to do next, as tw task does without words
  tw timew [COMMAND] [WORDS]
  tw server PORT FILE [COUNT]
                        serve syncs on a port of 127.0.0.1, with the history of
                        all clients in a file; end after COUNT connections
  tw check [FOLDER|FILE]
                        tell what the journals of this machine hold, or those
                        of a folder, or a file; nothing is written
  tw rescue FILE        write what is whole of a damaged journal, or of a
                        server's file, to FILE.rescued; FILE stays as it is
  tw audit              compare the tasks of this machine with the server's
                        history; nothing is written, here or there
  tw --help             print this text
  tw --version          print the version

commands that add tasks:
  add WORDS             add a task; the words are its description and changes
  log WORDS             add a task that is done
  FILTER duplicate [WORDS]
                        add copies of tasks, with changes
  import                read tasks as JSON, as export prints them, from the
                        standard input; one with a uuid becomes just that

commands that change tasks:
  FILTER modify WORDS   change them
  FILTER append TEXT    put a text after the description
  FILTER prepend TEXT   put a text before it
  FILTER annotate TEXT  add a note
  FILTER denotate TEXT  take away a note with this text
  FILTER start          begin to work on them
  FILTER stop           end that
  FILTER done           complete them
  FILTER delete         delete them
  FILTER purge          remove deleted ones for good
  undo                  undo the last command that changed something

reports, the tasks that they show, and their order:
  [FILTER] next         pending, the most urgent first; so without a COMMAND
  [FILTER] list         pending, by the moment when they are due
  [FILTER] blocked      that wait for other tasks, by due
  [FILTER] waiting      hidden until a moment, by that
  [FILTER] completed    done, by their end
  [FILTER] all          all

commands that show tasks:
  FILTER information    print all that is stored of them
  [FILTER] projects     print the projects of pending tasks, with their number
  [FILTER] tags         print their tags, with their number
  [FILTER] count        print how many there are
  [FILTER] ids          print their numbers
  [FILTER] uuids        print their uuids
  [FILTER] export       print them as JSON

between machines:
  sync                  exchange changes with the server that the settings name

commands of working hours, after tw timew:
  start [MOMENT] [TAGS] begin an interval; an open one ends
  stop [MOMENT]         end the open interval
  cancel                drop it
  continue [@N]         begin one with the tags of the last one, or of that one
  track START - END [TAGS]
                        place an interval
  tag [@N ..] TAGS      add tags, to the open one without an id
  untag [@N ..] TAGS    take tags away
  annotate [@N] TEXT    set the note
  delete @N ..          drop intervals
  split @N ..           cut each in the middle
  join @N @M            make one interval of two
  move @N START         move one to another start
  lengthen @N LENGTH    move the end of one to a later moment
  shorten @N LENGTH     move it to an earlier one
  undo                  undo the last change
  summary [RANGE]       show intervals and their length, today's without a range
  export [RANGE]        print them as JSON, all without a range
  gaps [RANGE]          show what is free between them, today without a range
  days [RANGE]          show the time of each day, today's without a range
  weeks [RANGE]         show the time of each week, likewise
  totals [RANGE]        show the time of each tag, likewise

@1 is the last interval. A range is :day, :week, :all or START - END. With
:adjust other intervals make room for the one that is placed.

A change is a word as project:Home, due:tomorrow, priority:H, depends:3, +tag or
-tag, and every other word is part of the description. A task that is added with
due:2026-01-31 recur:monthly recurs: the reports make a task for each month.

A filter has numbers of tasks, uuids, +tag, -tag, +PENDING and its kin,
attributes as project:Home or due.before:eow, and words of the description, with
and, or, xor, ! and brackets between them. Words after -- are text.

Commands and names are not shortened: mod and pri:H are words of a filter or of
a description. Nothing asks for confirmation; undo takes a command back.

attributes that a change may set:
  description project priority due wait scheduled until entry depends recur
attributes that a filter may ask for, too:
  modified start end status parent uuid
modifiers, as in due.before:eow:
  none any is equals isnt not before below after above has contains hasnt
  startswith left endswith right word noword
virtual tags:
  PENDING WAITING COMPLETED DELETED ACTIVE OVERDUE BLOCKED BLOCKING TAGGED
  ANNOTATED

The tasks are in the file replica.journal, in the folder that the variable
TASKDATA names, or the setting data.location; without them in .task of the
folder that HOME names; scripts in the folder hooks beside it see each task
before it is stored. The working hours are in the folder that TIMEWARRIORDB
names; without it in .timewarrior of the folder that HOME names. A folder that
is not there is made, and so is the server's file.

The variable TZ holds the time zone, as a rule of POSIX such as
CET-1CEST,M3.5.0,M10.5.0/3; without it the zone is UTC. The name of a place, as
Europe/Berlin, is refused: bad command line. The rule of this machine's zone is
the last line of a file:

  export TZ=\"$(tail -n 1 /etc/localtime)\"

Settings are read from the file that TASKRC names; without it from .taskrc in
the folder that HOME names. A word rc.NAME=VALUE sets one for a run:

  sync.server.url=http://HOST:PORT
  sync.server.client_id=UUID

settings:
  data.location sync.server.url sync.server.client_id gc recurrence
  recurrence.limit hooks timetrack urgency.age.max
  urgency.user.tag.next.coefficient urgency.due.coefficient
  urgency.blocking.coefficient urgency.uda.priority.H.coefficient
  urgency.uda.priority.M.coefficient urgency.uda.priority.L.coefficient
  urgency.scheduled.coefficient
  urgency.active.coefficient urgency.age.coefficient
  urgency.annotations.coefficient urgency.tags.coefficient
  urgency.project.coefficient urgency.blocked.coefficient
  urgency.waiting.coefficient

status:
  0 done                        5 the server or the port failed
  1 nothing to do               6 the output failed
  2 a word or setting is wrong  7 the journal or a month file is damaged
  3 the journal failed          8 the input failed or does not fit, or the
  4 out of memory                 folder of the month files failed
                                9 a hook refused a task, or failed
";

/// The program's name and version. The change log has the same version.
pub const VERSION: &str = "tw 0.1.0\n";
