use rdm_script::{BadScript, Place, Reason, ScriptRefused, job_of, read_jobs};
use std::alloc::Global;
use std::test::Fail;

/// What is wrong with a script, if anything is.
fn wrong(alloc: Global, script: &str) -> Result<Option<BadScript>, ScriptRefused> {
    match job_of(alloc, script.as_bytes()) {
        Ok(_) => Ok(None),
        Err(ScriptRefused::Bad(bad)) => Ok(Some(bad)),
        Err(ScriptRefused::Memory) => Err(ScriptRefused::Memory),
    }
}

#[test]
fn scripts_are_read_or_refused(rt: HostRuntime) -> Result<(), Fail> {
    read_jobs();
    let rank = Place::Rank(0);
    let table = [
        (
            r#"{"version":2,"ranks":[{"ops":[{"op":"note","to":0,"what":9},{"op":"await","from":0,"what":9},{"op":"open","connid":5},{"op":"insert","port":0,"connid":5},{"op":"reg","text":"hi"},{"op":"reg","hex":"aF00"},{"op":"reg","zero":3},{"op":"reg","fill":[3,255]},{"op":"send","to":0,"parts":[[1,1,1],[0,0,2]],"tag":7,"data":8},{"op":"recv","from":0,"region":1,"at":0,"len":2,"tag":7,"ignore":3},{"op":"recv","region":1,"at":0,"len":2},{"op":"cancel","recv":1},{"op":"wait","count":2}],"pools":{"tx":1}}]}"#,
            None,
        ),
        (
            r#"{"version":2,"ranks":[{"ops":[],"pools":{"cq":0}}]}"#,
            Some(BadScript {
                place: rank,
                why: Reason::Limit,
            }),
        ),
        (
            r#"{"version":2,"ranks":[{"ops":[],"pools":{"inbox":1}}]}"#,
            Some(BadScript {
                place: rank,
                why: Reason::Shape,
            }),
        ),
    ];
    for (script, want) in table {
        assert!(rt; wrong(rt.alloc(), script)? == want, "{script}");
    }
    Ok(())
}
