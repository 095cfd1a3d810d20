//! Cases of the small games, worked by hand.

use crate::driving::{Step, play};
use dk_demos::{Channels, Counters, Greeter, Timer};
use dk_game::Game;
use std::alloc::Global;
use std::process::Abort;
use std::test::Fail;
use sword_world::SwordWorld;

/// What is done, the transcript that follows, and what `inspect` writes in the end.
#[derive(Clone, Copy)]
struct Row<'a> {
    steps: &'a [Step<'a>],
    transcript: &'a str,
    inspected: &'a str,
}

fn assert_rows<G: Game>(
    rt: &impl Abort,
    alloc: Global,
    game: &G,
    rows: &[Row<'_>],
) -> Result<(), Fail> {
    for row in rows {
        let (transcript, inspected) = play(alloc, game, row.steps)?;
        assert_eq!(rt;
            transcript.as_slice(),
            row.transcript.as_bytes(),
            "the transcript"
        );
        assert_eq!(rt; inspected.as_slice(), row.inspected.as_bytes(), "the text");
    }
    Ok(())
}

#[test]
fn a_late_timer_skips_and_ends_with_the_third(rt: HostRuntime) -> Result<(), Fail> {
    let rows = [
        Row {
            steps: &[Step::Sync, Step::Tick(350), Step::Sync],
            transcript: "phase 0\nclaim 0 at 0 initialize\ncommit 1 run 0 ok\ntick 350\nclaim 1 at 350 task 0.0\ncommit 2 run 1 ok\ndone commits 2 tasks 1\n",
            inspected: "{\"commits\":2,\"game\":\"timer\",\"last_run\":1,\"names\":[[\"Count\",\"0.0\"]],\"objects\":[[\"0.0\",1,\"0000000000000001\"]],\"tasks\":[[\"0.0\",400,100,1,\"\"]]}\n",
        },
        Row {
            steps: &[
                Step::Sync,
                Step::Tick(350),
                Step::Sync,
                Step::Tick(400),
                Step::Sync,
                Step::Tick(500),
                Step::Sync,
                Step::Tick(600),
                Step::Sync,
            ],
            transcript: "phase 0\nclaim 0 at 0 initialize\ncommit 1 run 0 ok\ntick 350\nclaim 1 at 350 task 0.0\ncommit 2 run 1 ok\ntick 400\nclaim 2 at 400 task 0.0\ncommit 3 run 2 ok\ntick 500\nclaim 3 at 500 task 0.0\ncommit 4 run 3 ok\ntick 600\ndone commits 4 tasks 0\n",
            inspected: "{\"commits\":4,\"game\":\"timer\",\"last_run\":3,\"names\":[[\"Count\",\"0.0\"]],\"objects\":[[\"0.0\",1,\"0000000000000003\"]],\"tasks\":[]}\n",
        },
    ];
    assert_rows(&rt, rt.alloc(), &Timer, rows.as_slice())
}

#[test]
fn channels_send_on_and_are_heard(rt: HostRuntime) -> Result<(), Fail> {
    let rows = [
        Row {
            steps: &[
                Step::Sync,
                Step::Login("alice"),
                Step::Login("bob"),
                Step::Sync,
                Step::Say(0, "Foo", "hi"),
                Step::Say(0, "Bar", "hi"),
                Step::Say(0, "Baz", "hi"),
                Step::Send(0, "join Nope"),
                Step::Sync,
            ],
            transcript: "phase 0\nclaim 0 at 0 initialize\ncommit 1 run 0 ok\nopen 1 alice\nopen 2 bob\nclaim 3 at 0 login alice\ncommit 2 run 3 ok\nclaim 4 at 0 login bob\ncommit 3 run 4 ok\nto 1 alice accepted\nto 2 bob accepted\nclaim 5 at 0 channel alice\ncommit 4 run 5 ok\nclaim 6 at 0 channel alice\ncommit 5 run 6 ok\nclaim 7 at 0 channel alice\ncommit 6 run 7 ok\nclaim 8 at 0 message alice\ncommit 7 run 8 fail r1\nto 1 alice channel Foo hi\nto 1 alice channel Bar heard: hi\nto 2 bob channel Foo hi\nto 2 bob channel Bar heard: hi\ndone commits 7 tasks 0\n",
            inspected: "{\"commits\":7,\"game\":\"channels\",\"last_run\":8,\"names\":[[\"$c.Bar\",\"0.1\"],[\"$c.Foo\",\"0.0\"],[\"$s.alice\",\"3.0\"],[\"$s.bob\",\"4.0\"]],\"objects\":[[\"0.0\",65282,\"00000000000205616c696365000000000000000103626f620000000000000002\"],[\"0.1\",65282,\"01000000000205616c696365000000000000000103626f620000000000000002\"],[\"3.0\",65281,\"00000000000000010000000203466f6f03426172\"],[\"4.0\",65281,\"00000000000000020000000203466f6f03426172\"]],\"tasks\":[]}\n",
        },
        Row {
            steps: &[
                Step::Sync,
                Step::Login("alice"),
                Step::Sync,
                Step::Send(0, "members Foo"),
                Step::Send(0, "leave Foo"),
                Step::Send(0, "empty Bar"),
                Step::Send(0, "members Bar"),
                Step::Send(0, "join Foo"),
                Step::Send(0, "members "),
                Step::Send(0, "members"),
                Step::Sync,
            ],
            transcript: "phase 0\nclaim 0 at 0 initialize\ncommit 1 run 0 ok\nopen 1 alice\nclaim 2 at 0 login alice\ncommit 2 run 2 ok\nto 1 alice accepted\nclaim 3 at 0 message alice\ncommit 3 run 3 ok\nclaim 4 at 0 message alice\ncommit 4 run 4 ok\nclaim 5 at 0 message alice\ncommit 5 run 5 ok\nclaim 6 at 0 message alice\ncommit 6 run 6 ok\nclaim 7 at 0 message alice\ncommit 7 run 7 ok\nclaim 8 at 0 message alice\ncommit 8 run 8 fail g1\nclaim 9 at 0 message alice\ncommit 9 run 9 ok\nto 1 alice message alice\nto 1 alice message \ndone commits 9 tasks 0\n",
            inspected: "{\"commits\":9,\"game\":\"channels\",\"last_run\":9,\"names\":[[\"$c.Bar\",\"0.1\"],[\"$c.Foo\",\"0.0\"],[\"$s.alice\",\"2.0\"]],\"objects\":[[\"0.0\",65282,\"00000000000105616c6963650000000000000001\"],[\"0.1\",65282,\"010000000000\"],[\"2.0\",65281,\"00000000000000010000000103466f6f\"]],\"tasks\":[]}\n",
        },
        Row {
            steps: &[
                Step::Sync,
                Step::Login("alice"),
                Step::Login("bob"),
                Step::Sync,
                Step::Send(1, "members Foo"),
                Step::Sync,
                Step::Logout(0),
                Step::Sync,
                Step::Send(1, "members Foo"),
                Step::Sync,
            ],
            transcript: "phase 0\nclaim 0 at 0 initialize\ncommit 1 run 0 ok\nopen 1 alice\nopen 2 bob\nclaim 3 at 0 login alice\ncommit 2 run 3 ok\nclaim 4 at 0 login bob\ncommit 3 run 4 ok\nto 1 alice accepted\nto 2 bob accepted\nclaim 5 at 0 message bob\ncommit 4 run 5 ok\nto 2 bob message alice bob\nclaim 6 at 0 disconnect alice\ncommit 5 run 6 ok\nclaim 7 at 0 message bob\ncommit 6 run 7 ok\nto 2 bob message bob\ndone commits 6 tasks 0\n",
            inspected: "{\"commits\":6,\"game\":\"channels\",\"last_run\":7,\"names\":[[\"$c.Bar\",\"0.1\"],[\"$c.Foo\",\"0.0\"],[\"$s.bob\",\"4.0\"]],\"objects\":[[\"0.0\",65282,\"00000000000103626f620000000000000002\"],[\"0.1\",65282,\"01000000000103626f620000000000000002\"],[\"4.0\",65281,\"00000000000000020000000203466f6f03426172\"]],\"tasks\":[]}\n",
        },
        Row {
            steps: &[
                Step::Sync,
                Step::Login("alice"),
                Step::Login("bob"),
                Step::Sync,
                Step::Login("alice"),
                Step::Sync,
                Step::Say(1, "Foo", "hi"),
                Step::Send(1, "members Foo"),
                Step::Sync,
            ],
            transcript: "phase 0\nclaim 0 at 0 initialize\ncommit 1 run 0 ok\nopen 1 alice\nopen 2 bob\nclaim 3 at 0 login alice\ncommit 2 run 3 ok\nclaim 4 at 0 login bob\ncommit 3 run 4 ok\nto 1 alice accepted\nto 2 bob accepted\nopen 5 alice\nclaim 6 at 0 login alice\ncommit 4 run 6 ok\nto 1 alice close\nto 5 alice accepted\nclaim 7 at 0 channel bob\ncommit 5 run 7 ok\nclaim 8 at 0 message bob\ncommit 6 run 8 ok\nto 2 bob channel Foo hi\nto 2 bob message bob alice\nto 5 alice channel Foo hi\ndone commits 6 tasks 0\n",
            inspected: "{\"commits\":6,\"game\":\"channels\",\"last_run\":8,\"names\":[[\"$c.Bar\",\"0.1\"],[\"$c.Foo\",\"0.0\"],[\"$s.alice\",\"6.0\"],[\"$s.bob\",\"4.0\"]],\"objects\":[[\"0.0\",65282,\"00000000000203626f62000000000000000205616c6963650000000000000005\"],[\"0.1\",65282,\"01000000000203626f62000000000000000205616c6963650000000000000005\"],[\"4.0\",65281,\"00000000000000020000000203466f6f03426172\"],[\"6.0\",65281,\"00000000000000050000000203466f6f03426172\"]],\"tasks\":[]}\n",
        },
    ];
    assert_rows(&rt, rt.alloc(), &Channels, rows.as_slice())
}

#[test]
fn a_restart_tells_each_session_of_its_end(rt: HostRuntime) -> Result<(), Fail> {
    let rows = [Row {
        steps: &[
            Step::Sync,
            Step::Login("alice"),
            Step::Login("bob"),
            Step::Sync,
            Step::Restart,
            Step::Sync,
            Step::Login("alice"),
            Step::Sync,
        ],
        transcript: "phase 0\nclaim 0 at 0 initialize\ncommit 1 run 0 ok\nopen 1 alice\nopen 2 bob\nclaim 3 at 0 login alice\ncommit 2 run 3 ok\nclaim 4 at 0 login bob\ncommit 3 run 4 ok\nto 1 alice accepted\nto 2 bob accepted\nclaim 5 at 0 disconnect alice\ncommit 4 run 5 ok\nclaim 6 at 0 disconnect bob\ncommit 5 run 6 ok\nopen 7 alice\nclaim 8 at 0 login alice\ncommit 6 run 8 ok\nto 7 alice accepted\ndone commits 6 tasks 0\n",
        inspected: "{\"commits\":6,\"game\":\"channels\",\"last_run\":8,\"names\":[[\"$c.Bar\",\"0.1\"],[\"$c.Foo\",\"0.0\"],[\"$s.alice\",\"8.0\"]],\"objects\":[[\"0.0\",65282,\"00000000000105616c6963650000000000000007\"],[\"0.1\",65282,\"01000000000105616c6963650000000000000007\"],[\"8.0\",65281,\"00000000000000070000000203466f6f03426172\"]],\"tasks\":[]}\n",
    }];
    assert_rows(&rt, rt.alloc(), &Channels, rows.as_slice())
}

#[test]
fn a_sword_lies_in_a_room(rt: HostRuntime) -> Result<(), Fail> {
    let rows = [
        Row {
            steps: &[Step::Sync],
            transcript: "phase 0\nclaim 0 at 0 initialize\ncommit 1 run 0 ok\ndone commits 1 tasks 0\n",
            inspected: "{\"commits\":1,\"game\":\"sword-world\",\"last_run\":0,\"names\":[[\"Room\",\"0.1\"]],\"objects\":[[\"0.0\",2,\"0d61207368696e792073776f7264\"],[\"0.1\",1,\"0000000000000001000000000000000000000000\"]],\"tasks\":[]}\n",
        },
        // Who logs in again has let the sword fall.
        Row {
            steps: &[
                Step::Sync,
                Step::Login("alice"),
                Step::Send(0, "take"),
                Step::Sync,
                Step::Login("alice"),
                Step::Send(1, "look"),
                Step::Sync,
            ],
            transcript: "phase 0\nclaim 0 at 0 initialize\ncommit 1 run 0 ok\nopen 1 alice\nclaim 2 at 0 login alice\ncommit 2 run 2 ok\nclaim 3 at 0 message alice\ncommit 3 run 3 ok\nto 1 alice accepted\nto 1 alice message You take a shiny sword.\nopen 4 alice\nclaim 5 at 0 login alice\ncommit 4 run 5 ok\nclaim 6 at 0 message alice\ncommit 5 run 6 ok\nto 1 alice close\nto 4 alice accepted\nto 4 alice message You are in a plain room.\\x0aOn the floor: a shiny sword.\\x0a\ndone commits 5 tasks 0\n",
            inspected: "{\"commits\":5,\"game\":\"sword-world\",\"last_run\":6,\"names\":[[\"$s.alice\",\"5.0\"],[\"Player.alice\",\"2.1\"],[\"Room\",\"0.1\"]],\"objects\":[[\"0.0\",2,\"0d61207368696e792073776f7264\"],[\"0.1\",1,\"0000000100000000000000020000000100000001000000000000000000000000\"],[\"2.1\",3,\"05616c69636500\"],[\"5.0\",65281,\"000000000000000400000000\"]],\"tasks\":[]}\n",
        },
    ];
    assert_rows(&rt, rt.alloc(), &SwordWorld, rows.as_slice())
}

#[test]
fn tasks_raise_the_counters_of_the_list(rt: HostRuntime) -> Result<(), Fail> {
    let rows = [Row {
        steps: &[Step::Sync],
        transcript: "phase 0\nclaim 0 at 0 initialize\ncommit 1 run 0 ok\nclaim 1 at 0 task 0.0\ncommit 2 run 1 ok\nclaim 2 at 0 task 0.1\ncommit 3 run 2 ok\nclaim 3 at 0 task 0.2\ncommit 4 run 3 ok\nclaim 4 at 0 task 0.3\ncommit 5 run 4 ok\nclaim 5 at 0 task 0.4\ncommit 6 run 5 ok\nclaim 6 at 0 task 0.5\ncommit 7 run 6 ok\ndone commits 7 tasks 0\n",
        inspected: "{\"commits\":7,\"game\":\"counters\",\"last_run\":6,\"names\":[[\"c.00\",\"0.0\"],[\"c.01\",\"0.1\"],[\"c.02\",\"0.2\"],[\"c.03\",\"0.3\"],[\"c.04\",\"0.4\"],[\"c.05\",\"0.5\"],[\"c.06\",\"0.6\"],[\"c.07\",\"0.7\"],[\"c.08\",\"0.8\"],[\"c.09\",\"0.9\"],[\"c.10\",\"0.10\"],[\"c.11\",\"0.11\"],[\"c.12\",\"0.12\"],[\"c.13\",\"0.13\"],[\"c.14\",\"0.14\"],[\"c.15\",\"0.15\"]],\"objects\":[[\"0.0\",1,\"0000000000000000\"],[\"0.1\",1,\"0000000000000000\"],[\"0.2\",1,\"0000000000000000\"],[\"0.3\",1,\"0000000000000000\"],[\"0.4\",1,\"0000000000000000\"],[\"0.5\",1,\"0000000000000000\"],[\"0.6\",1,\"0000000000000000\"],[\"0.7\",1,\"0000000000000001\"],[\"0.8\",1,\"0000000000000002\"],[\"0.9\",1,\"0000000000000002\"],[\"0.10\",1,\"0000000000000001\"],[\"0.11\",1,\"0000000000000000\"],[\"0.12\",1,\"0000000000000000\"],[\"0.13\",1,\"0000000000000000\"],[\"0.14\",1,\"0000000000000000\"],[\"0.15\",1,\"0000000000000000\"]],\"tasks\":[]}\n",
    }];
    assert_rows(&rt, rt.alloc(), &Counters::new(7, 6), rows.as_slice())
}

/// The transcript of `docs/WRITING-A-GAME.md`.
#[test]
fn a_guest_is_known_again(rt: HostRuntime) -> Result<(), Fail> {
    let rows = [Row {
        steps: &[
            Step::Sync,
            Step::Login("alice"),
            Step::Sync,
            Step::Logout(0),
            Step::Sync,
            Step::Login("alice"),
            Step::Sync,
        ],
        transcript: "phase 0\nclaim 0 at 0 initialize\ncommit 1 run 0 ok\nopen 1 alice\nclaim 2 at 0 login alice\ncommit 2 run 2 ok\nto 1 alice accepted\nto 1 alice message Welcome.\nclaim 3 at 0 disconnect alice\ncommit 3 run 3 ok\nopen 4 alice\nclaim 5 at 0 login alice\ncommit 4 run 5 ok\nto 4 alice accepted\nto 4 alice message Welcome back.\ndone commits 4 tasks 0\n",
        inspected: "{\"commits\":4,\"game\":\"greeter\",\"last_run\":5,\"names\":[[\"$s.alice\",\"5.0\"],[\"Guest.alice\",\"2.1\"]],\"objects\":[[\"2.1\",1,\"0000000000000002\"],[\"5.0\",65281,\"000000000000000400000000\"]],\"tasks\":[]}\n",
    }];
    assert_rows(&rt, rt.alloc(), &Greeter, rows.as_slice())
}
