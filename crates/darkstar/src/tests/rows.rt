//! The rows of commands, as text.

/// Each row is a manner and the words of a command: `new` on a folder without a store, `then` on what the row before it left.
/// Lines of a script follow, then the status, and what is written. The transcripts are worked by hand.
pub(super) const ROWS: &str = "new: play D
= 0
phase 0
claim 0 at 0 initialize
commit 1 run 0 ok
phase 1
done commits 1 tasks 0
--
then: play D
= 0
phase 0
phase 1
done commits 1 tasks 0
--
then: check D
= 0
ok 1 commits 205 bytes
--
then: play D --game timer
= 9
--
new: play D
login alice
send alice look
= 0
phase 0
claim 0 at 0 initialize
commit 1 run 0 ok
phase 1
open 1 alice
claim 2 at 0 login alice
commit 2 run 2 ok
claim 3 at 0 message alice
commit 3 run 3 ok
to 1 alice accepted
to 1 alice message You are in a plain room.\\x0aOn the floor: a shiny sword.\\x0a
done commits 3 tasks 0
--
then: check D
= 0
ok 3 commits 462 bytes
--
then: play D
= 0
phase 0
claim 4 at 0 disconnect alice
commit 4 run 4 ok
phase 1
done commits 4 tasks 0
--
then: check D
= 0
ok 4 commits 574 bytes
--
new: play D --workers 4
login alice
send alice look
= 0
phase 0
claim 0 at 0 initialize
commit 1 run 0 ok
phase 1
open 1 alice
claim 2 at 0 login alice
commit 2 run 2 ok
claim 3 at 0 message alice
commit 3 run 3 ok
to 1 alice accepted
to 1 alice message You are in a plain room.\\x0aOn the floor: a shiny sword.\\x0a
done commits 3 tasks 0
--
new: play D
login alice
login bob
sync
send alice look
sync
login carol
login dave
sync
send alice look
= 0
phase 0
claim 0 at 0 initialize
commit 1 run 0 ok
phase 1
open 1 alice
open 2 bob
claim 3 at 0 login alice
commit 2 run 3 ok
claim 4 at 0 login bob
commit 3 run 4 ok
to 1 alice accepted
to 2 bob accepted
phase 2
claim 5 at 0 message alice
commit 4 run 5 ok
to 1 alice message You are in a plain room.\\x0aAlso in here: bob.\\x0aOn the floor: a shiny sword.\\x0a
phase 3
open 6 carol
open 7 dave
claim 8 at 0 login carol
commit 5 run 8 ok
claim 9 at 0 login dave
commit 6 run 9 ok
to 6 carol accepted
to 7 dave accepted
phase 4
claim 10 at 0 message alice
commit 7 run 10 ok
to 1 alice message You are in a plain room.\\x0aAlso in here: bob, carol and dave.\\x0aOn the floor: a shiny sword.\\x0a
done commits 7 tasks 0
--
new: play D
login alice
send alice take
send alice look
send alice take
send alice drop
send alice drop
= 0
phase 0
claim 0 at 0 initialize
commit 1 run 0 ok
phase 1
open 1 alice
claim 2 at 0 login alice
commit 2 run 2 ok
claim 3 at 0 message alice
commit 3 run 3 ok
claim 4 at 0 message alice
commit 4 run 4 ok
claim 5 at 0 message alice
commit 5 run 5 ok
claim 6 at 0 message alice
commit 6 run 6 ok
claim 7 at 0 message alice
commit 7 run 7 ok
to 1 alice accepted
to 1 alice message You take a shiny sword.
to 1 alice message You are in a plain room.\\x0a
to 1 alice message You already carry a shiny sword.
to 1 alice message You drop a shiny sword.
to 1 alice message You carry nothing.
done commits 7 tasks 0
--
new: play D
# twice
login alice

login alice
send alice look
= 0
phase 0
claim 0 at 0 initialize
commit 1 run 0 ok
phase 1
open 1 alice
open 2 alice
claim 3 at 0 login alice
commit 2 run 3 ok
claim 4 at 0 login alice
commit 3 run 4 ok
claim 5 at 0 message alice
commit 4 run 5 ok
to 1 alice accepted
to 1 alice close
to 2 alice accepted
to 2 alice message You are in a plain room.\\x0aOn the floor: a shiny sword.\\x0a
done commits 4 tasks 0
--
new: play D --game timer
tick 350
= 0
phase 0
claim 0 at 0 initialize
commit 1 run 0 ok
phase 1
tick 350
claim 1 at 350 task 0.0
commit 2 run 1 ok
done commits 2 tasks 1
--
then: inspect D --game timer
= 0
{\"commits\":2,\"game\":\"timer\",\"last_run\":1,\"names\":[[\"Count\",\"0.0\"]],\"objects\":[[\"0.0\",1,\"0000000000000001\"]],\"tasks\":[[\"0.0\",400,100,1,\"\"]]}
--
then: play D --game timer
tick 400
sync
tick 500
= 0
phase 0
phase 1
tick 400
claim 2 at 400 task 0.0
commit 3 run 2 ok
phase 2
tick 500
claim 3 at 500 task 0.0
commit 4 run 3 ok
done commits 4 tasks 0
--
new: play D --game channels
login alice
login bob
sync
channel alice Foo hi
channel alice Bar hi
channel alice Baz hi
send alice join Nope
= 0
phase 0
claim 0 at 0 initialize
commit 1 run 0 ok
phase 1
open 1 alice
open 2 bob
claim 3 at 0 login alice
commit 2 run 3 ok
claim 4 at 0 login bob
commit 3 run 4 ok
to 1 alice accepted
to 2 bob accepted
phase 2
claim 5 at 0 channel alice
commit 4 run 5 ok
claim 6 at 0 channel alice
commit 5 run 6 ok
claim 7 at 0 channel alice
commit 6 run 7 ok
claim 8 at 0 message alice
commit 7 run 8 fail r1
to 1 alice channel Foo hi
to 1 alice channel Bar heard: hi
to 2 bob channel Foo hi
to 2 bob channel Bar heard: hi
done commits 7 tasks 0
--
then: play D --game channels
login alice
sync
send alice members Foo
send alice leave Foo
send alice empty Bar
send alice members Bar
= 0
phase 0
claim 9 at 0 disconnect alice
commit 8 run 9 ok
claim 10 at 0 disconnect bob
commit 9 run 10 ok
phase 1
open 11 alice
claim 12 at 0 login alice
commit 10 run 12 ok
to 11 alice accepted
phase 2
claim 13 at 0 message alice
commit 11 run 13 ok
claim 14 at 0 message alice
commit 12 run 14 ok
claim 15 at 0 message alice
commit 13 run 15 ok
claim 16 at 0 message alice
commit 14 run 16 ok
to 11 alice message alice
to 11 alice message 
done commits 14 tasks 0
--
new: play D --budget 2
login alice
send alice look
= 10
--
then: check D
= 0
ok 2 commits 409 bytes
--
new: play D --checkpoint
= 0
phase 0
claim 0 at 0 initialize
commit 1 run 0 ok
phase 1
done commits 1 tasks 0
--
then: check D
= 0
ok 1 commits 185 bytes
--
new: play D
send alice look
= 6
--
new: play D
login alice
logout alice
send alice look
= 6
--
new: play D
tick 07
= 6
--
new: check D
= 0
empty
--
new: inspect D --game channels
= 0
{\"commits\":0,\"game\":\"channels\",\"last_run\":null,\"names\":[],\"objects\":[],\"tasks\":[]}
--
new: 
= 2
--
new: play
= 2
--
new: dance D
= 2
--
new: play D E
= 2
--
new: play D --workers 65
= 2
--
new: play D --game chess
= 2
--
new: inspect D --budget 1
= 2
";
