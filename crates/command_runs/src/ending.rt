// How a run over a capture ends.
ghost use Rattle.std.specs.Prelude.{◌≡◌, IfOk, true, vec_len};
ghost use Rattle.command_runs.specs.Endings.{Flushed, refusal_status};

use crate::Status;
use sflow_io::{ReadRefusal, Sink};
use std::alloc::{AllocError, Global};
use text_lines::Page;
use wire_spec::MAX_DATAGRAM;

/// Room for the bytes of an entry.
pub fn new_room(alloc: Global) -> Result<Vec<u8>, AllocError>
    ensures { IfOk result (λ room. vec_len room ≡ 65535) }
{
    vec![in alloc; 0u8; MAX_DATAGRAM]
}

/// The status that names the refusal.
pub fn status_of(refusal: ReadRefusal) -> Status
    ensures { result ≡ refusal_status refusal }
{
    match refusal {
        ReadRefusal::ReadFault => Status::ReadFault,
        ReadRefusal::BadInput { at, kind } => Status::BadInput { at, kind },
        ReadRefusal::Spent => Status::Spent,
    }
}

/// Writes what the page holds, and then the run has this status, unless the write fails.
pub fn flush<K: Sink>(page: &mut Page, sink: &mut K, status: Status) -> Status
    ensures { Flushed (K.seen sink.old) (K.seen sink.new) page.old status result }
{
    match page.flush(sink) {
        Ok(()) => status,
        Err(_) => Status::WriteFault,
    }
}
