//! The instructions of a generated job, as JSON values.
ghost use Rattle.std.specs.Prelude.{◌≡◌, IfOk};
ghost use Rattle.serde_json.specs.View.{view};
ghost use Rattle.rdm_generate.specs.Instructions.{open_json, insert_json, fill_json, zero_json, empty_recv_json, recv_json, send_json, wait_json};

use serde_json::{Value, json};
use std::alloc::{AllocError, Global};

/// The region that a rank sends from.
const SENT_REGION: u32 = 0;

/// The region that a rank receives in.
const RECEIVED_REGION: u32 = 1;

pub fn open(alloc: Global, connid: u64) -> Result<Value, AllocError>
    ensures { IfOk result (λ v. view v ≡ open_json connid) }
{
    json!(in alloc; {"op": "open", "connid": connid})
}

pub fn insert(alloc: Global, port: u32, connid: u64) -> Result<Value, AllocError>
    ensures { IfOk result (λ v. view v ≡ insert_json port connid) }
{
    json!(in alloc; {"op": "insert", "port": port, "connid": connid})
}

pub fn fill(alloc: Global, len: u64, seed: u64) -> Result<Value, AllocError>
    ensures { IfOk result (λ v. view v ≡ fill_json len seed) }
{
    json!(in alloc; {"op": "reg", "fill": [len, seed]})
}

pub fn zero(alloc: Global, len: u64) -> Result<Value, AllocError>
    ensures { IfOk result (λ v. view v ≡ zero_json len) }
{
    json!(in alloc; {"op": "reg", "zero": len})
}

/// A receive of an empty message from one port.
pub fn empty_recv(alloc: Global, from: u32, tag: u64) -> Result<Value, AllocError>
    ensures { IfOk result (λ v. view v ≡ empty_recv_json from tag) }
{
    json!(in alloc; {
        "op": "recv",
        "from": from,
        "region": RECEIVED_REGION,
        "at": 0u32,
        "len": 0u32,
        "tag": tag
    })
}

/// A receive from any port.
pub fn recv(alloc: Global, at: u64, len: u32, tag: u64) -> Result<Value, AllocError>
    ensures { IfOk result (λ v. view v ≡ recv_json at len tag) }
{
    json!(in alloc; {
        "op": "recv",
        "region": RECEIVED_REGION,
        "at": at,
        "len": len,
        "tag": tag
    })
}

pub fn send(alloc: Global, to: u32, at: u64, len: u32, tag: u64) -> Result<Value, AllocError>
    ensures { IfOk result (λ v. view v ≡ send_json to at len tag) }
{
    json!(in alloc; {
        "op": "send",
        "to": to,
        "region": SENT_REGION,
        "at": at,
        "len": len,
        "tag": tag
    })
}

pub fn wait(alloc: Global, count: u64) -> Result<Value, AllocError>
    ensures { IfOk result (λ v. view v ≡ wait_json count) }
{
    json!(in alloc; {"op": "wait", "count": count})
}
