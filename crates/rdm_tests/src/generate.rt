use rdm_generate::script_of;
use rdm_script::{Reason, ScriptRefused, job_of};
use sha2::{Digest, Sha256};
use std::alloc::Global;
use std::test::Fail;

/// Whether the script is well formed: what isn't played yet is told last.
fn is_well_formed(alloc: Global, script: &[u8]) -> Result<bool, ScriptRefused> {
    match job_of(alloc, script) {
        Ok(_) => Ok(true),
        Err(ScriptRefused::Bad(bad)) => Ok(bad.why == Reason::Unbuilt),
        Err(ScriptRefused::Memory) => Err(ScriptRefused::Memory),
    }
}

// The digests are those of another program's texts.
#[test]
fn generated_scripts_are_written(rt: HostRuntime) -> Result<(), Fail> {
    let table = [
        (
            0,
            0,
            18_164,
            "ef145d8186a5b33b9905cc026f8e75beafb51240806e2ca6290c7af47b66702c",
        ),
        (
            42,
            600,
            18_289,
            "1fee77a1db2cbbd93917fa5373036ee9b3360308808e22533ff42b99a73714b9",
        ),
        (
            42,
            1_000_000,
            29_781,
            "21a67c7cd3b5f572a0af9e65786ce02c4a3c2831e1b16fe2d6b527c96df34d08",
        ),
        (
            42,
            16_777_216,
            233_604,
            "00197b977f39a0921443e19bce3e91f226e2367e8c22e124104c3f8d675afb41",
        ),
        (
            u64::MAX,
            16_777_216,
            232_767,
            "440fdcfb85f805ff17b3865f41dbc87d5712ec6d31e161a70bab27920c4de898",
        ),
    ];
    for (seed, size, len, digest) in table {
        let script = script_of(rt.alloc(), seed, size)?;
        let bytes = script.as_slice();
        let made: [u8; 32] = Sha256::digest(bytes);
        let shown = hex::encode(rt.alloc(), made)?;
        assert_eq!(rt; bytes.len(), len, "{seed} {size}");
        assert_eq!(rt; shown.as_str(), digest, "{seed} {size}");
    }
    Ok(())
}

#[test]
fn generated_scripts_are_well_formed(rt: HostRuntime) -> Result<(), Fail> {
    for (seed, size) in [(0, 0), (42, 600), (42, 1_000_000)] {
        let script = script_of(rt.alloc(), seed, size)?;
        assert!(rt;
            is_well_formed(rt.alloc(), script.as_slice())?,
            "{seed} {size}"
        );
    }
    Ok(())
}
