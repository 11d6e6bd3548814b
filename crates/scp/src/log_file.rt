//! The file of a run's log: opened, held by one run, and emptied.

ghost use Rattle.std.specs.Prelude.{◌≡◌, ◌⊎◌, IfErr};
ghost use Rattle.fp_serve.specs.declared.run.fault.ServeFault.TheVariants.{Memory, UnwrittenLog};
ghost use Rattle.scp.specs.declared.fault.RunFault.TheVariants.{Serve, UnopenedLog};

use crate::fault::RunFault;
use fp_serve::ServeFault;
use std::fs;
use std::fs::{File, OpenOptions, TryLockError};
use std::io::ErrorKind;
use std::os::unix::fs::{MetadataExt, OpenOptionsExt};
use std::rt::Files;

/// The permissions of a log that is created: it has the numbers of callers.
const LOG_MODE: u32 = 0o640;

/// Opens the log to write it, unless it is the file of the records. Its octets stay until the address is bound, so that
/// a second run that is refused the address of the first leaves its log alone.
pub(crate) fn opened_log<H: Files<File = File>>(
    rt: &H,
    path: &str,
    records: &str,
) -> Result<File, RunFault>
    ensures fault { IfErr result (λ fault. (fault ≡ UnopenedLog) ⊎ (fault ≡ Serve Memory)) }
{
    let mut options = OpenOptions::new();
    options.write(true).create(true).mode(LOG_MODE);
    match options.open(rt, path) {
        Ok(file) if is_same_file(rt, &file, records) => Err(RunFault::UnopenedLog),
        Ok(file) => Ok(file),
        Err(error) if error.kind() == ErrorKind::OutOfMemory => {
            Err(RunFault::Serve(ServeFault::Memory))
        }
        Err(_) => Err(RunFault::UnopenedLog),
    }
}

/// Whether a file is the one at a path.
fn is_same_file<H: Files>(rt: &H, file: &File, path: &str) -> bool {
    let (Ok(one), Ok(other)) = (file.metadata(), fs::metadata(rt, path)) else {
        return false;
    };
    one.dev() == other.dev() && one.ino() == other.ino()
}

/// Locks the log, so that no other run writes it meanwhile: a second run is refused a log that the first holds. The
/// lock ends with the run. Only a regular file is locked, since the lock of a device is the whole machine's; and if the
/// system can't lock a file, the run goes on without.
pub(crate) fn lock(file: &File) -> Result<(), RunFault>
    ensures fault { IfErr result (λ fault. fault ≡ UnopenedLog) }
{
    let is_regular = match file.metadata() {
        Ok(known) => known.is_file(),
        Err(_) => false,
    };
    if !is_regular {
        return Ok(());
    }
    match file.try_lock() {
        Err(TryLockError::WouldBlock) => Err(RunFault::UnopenedLog),
        Ok(()) | Err(TryLockError::Error(_)) => Ok(()),
    }
}

/// Empties the log if it has octets. A device such as `/dev/null` has none, and can't be emptied. A log that can't be
/// emptied counts as one that can't be written.
pub(crate) fn empty(file: &File) -> Result<(), ServeFault>
    ensures fault { IfErr result (λ fault. fault ≡ UnwrittenLog) }
{
    let Ok(known) = file.metadata() else {
        return Err(ServeFault::UnwrittenLog);
    };
    if known.len() > 0 && file.set_len(0).is_err() {
        return Err(ServeFault::UnwrittenLog);
    }
    Ok(())
}
