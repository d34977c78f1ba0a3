//! A file of a shelf, read whole.
ghost use Rattle.std.specs.Prelude.{◌≡◌, ◌≤◌, vec_len, IfOk, IfErr, IsErrOf};
ghost use Rattle.run_rules.specs.Faults.{TellsFaults};
ghost use Rattle.run_rules.specs.Reading.{IsWhole, IsFileStop};

use outage_ports::{PIECE, Shelf};
use run_rules::{Status, Which};
use std::alloc::Global;

/// The bytes of a file, of which it may have at most so many: one with more meets this limit. Where
/// the shelf fails, either the file was not started, or what is left of it is what was not taken.
pub fn read_limited<S: Shelf>(
    alloc: Global,
    shelf: &mut S,
    name: &str,
    most: usize,
    which: Which,
) -> Result<Vec<u8>, Status>
    requires { S.allows name.now }
    ensures files { S.files shelf.new ≡ S.files shelf.old }
    ensures whole { IfOk result (λ v. IsWhole (S.files shelf.old) (S.left shelf.new) name.now most v.items) }
    ensures bound { IfOk result (λ v. vec_len v ≤ most) }
    ensures stopped { IfErr result (IsFileStop (S.files shelf.old) (S.left shelf.old)
        (S.left shelf.new) name.now most which) }
    ensures shelf { TellsFaults (S.faults shelf.old) (S.faults shelf.new)
        (IsErrOf result Status.ReadFault) }
{
    if shelf.start(name).is_err() {
        return Err(Status::ReadFault);
    }
    let mut bytes = Vec::new(alloc);
    let mut piece = [0; PIECE];
    'reads: while bytes.len() <= most {
        let Ok(count) = shelf.read(&mut piece) else {
            return Err(Status::ReadFault);
        };
        if count == 0 {
            return Ok(bytes);
        }
        if bytes.extend_from_slice(&piece[..count]).is_err() {
            return Err(Status::Memory);
        }
    }
    Err(Status::Limit { which })
}
