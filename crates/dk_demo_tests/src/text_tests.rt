//! Texts of worlds, worked by hand.

use dk_inspect::inspect_text;
use dk_types::{Blob, Durable, GameId, Listed, Name, Object, ObjectId, Pending, RunNo, TaskKey};
use std::alloc::Global;
use std::test::Fail;

fn sword_world() -> Result<GameId, Fail> {
    Ok(GameId::new(b"sword-world").ok().ok_or("an id")?)
}

fn id(k: u32) -> ObjectId {
    ObjectId { run: RunNo(0), k }
}

/// A world of one commit with these objects and names, and a task.
fn world_of(
    alloc: Global,
    objects: Vec<(ObjectId, Object)>,
    names: Vec<(Name, ObjectId)>,
) -> Result<Durable, Fail> {
    let mut tasks = Vec::new(alloc);
    tasks.push(Pending {
        key: TaskKey {
            run: RunNo(0),
            k: 7,
        },
        due: 40,
        period: 0,
        kind: 65_279,
        arg: Blob::copy_of(alloc, &[0, 10, 255])?,
    })?;
    Ok(Durable {
        commits: 1,
        last: Some(RunNo(0)),
        objects: Listed::from_vec(objects),
        names: Listed::from_vec(names),
        tasks: Listed::from_vec(tasks),
    })
}

#[test]
fn a_world_before_its_first_run_has_no_last_run(rt: HostRuntime) -> Result<(), Fail> {
    let alloc = rt.alloc();
    let world = Durable {
        commits: 0,
        last: None,
        objects: Listed::from_vec(Vec::new(alloc)),
        names: Listed::from_vec(Vec::new(alloc)),
        tasks: Listed::from_vec(Vec::new(alloc)),
    };
    let text = inspect_text(alloc, &sword_world()?, &world)?;
    let told =
        b"{\"commits\":0,\"game\":\"sword-world\",\"last_run\":null,\"names\":[],\"objects\":[],\"tasks\":[]}\n";
    assert_eq!(rt; text.as_slice(), told.as_slice());
    Ok(())
}

#[test]
fn bytes_are_escaped_as_json_asks(rt: HostRuntime) -> Result<(), Fail> {
    let alloc = rt.alloc();
    let rows = [
        ("\"\\/", "\\\"\\\\/"),
        ("\u{8}\t\n\u{c}\r", "\\b\\t\\n\\f\\r"),
        (
            "\0\u{b}\u{1f} \u{7f}\u{e9}",
            "\\u0000\\u000b\\u001f \u{7f}\u{e9}",
        ),
    ];
    for (name, escaped) in rows {
        let name = Name::new(alloc, name.as_bytes()).ok().ok_or("a name")?;
        let mut names = Vec::new(alloc);
        names.push((name, id(1)))?;
        let world = world_of(alloc, Vec::new(alloc), names)?;
        let text = inspect_text(alloc, &sword_world()?, &world)?;
        let told = format!(in alloc;
            "{{\"commits\":1,\"game\":\"sword-world\",\"last_run\":0,\"names\":[[\"{escaped}\",\"0.1\"]],\"objects\":[],\"tasks\":[[\"0.7\",40,0,65279,\"000aff\"]]}}\n"
        )?;
        assert_eq!(rt; text.as_slice(), told.as_bytes());
    }
    Ok(())
}

#[test]
fn ten_thousand_objects_stand_in_their_order(rt: HostRuntime) -> Result<(), Fail> {
    let alloc = rt.alloc();
    let mut objects = Vec::new(alloc);
    let mut told = String::from_str(
        alloc,
        "{\"commits\":1,\"game\":\"sword-world\",\"last_run\":0,\"names\":[],\"objects\":[[\"0.0\",2,\"0d\"]",
    )?;
    let bytes = Blob::copy_of(alloc, &[13])?;
    objects.push((id(0), Object { kind: 2, bytes }))?;
    for k in 1..10_000u32 {
        let bytes = Blob::copy_of(alloc, &[13])?;
        objects.push((id(k), Object { kind: 2, bytes }))?;
        write!(told, ",[\"0.{k}\",2,\"0d\"]")?;
    }
    told.push_str("],\"tasks\":[[\"0.7\",40,0,65279,\"000aff\"]]}\n")?;
    let world = world_of(alloc, objects, Vec::new(alloc))?;
    let text = inspect_text(alloc, &sword_world()?, &world)?;
    assert_eq!(rt; text.as_slice(), told.as_bytes());
    Ok(())
}
