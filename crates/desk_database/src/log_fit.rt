ghost use Rattle.std.specs.Prelude.{◌≡◌, ◌==◌, ◌↔◌, ◌⊎◌, ◌+◌, ◌<◌, ◌≤◌, if◌then◌else◌, ℕ, List, Some, IfErr, IfOk, IfSome, IsTrue, OnOk, length};
ghost use Rattle.sqlite_disk.specs.Disk.{CountsFaultIf};
ghost use Rattle.sqlite_format.specs.Bytes.{u32_at};
ghost use Rattle.sqlite_wal.specs.{Files.seen_image, Opening.RefusesLog, Outcome.HasCause, PageSize.bytes_of, Reads.{AreClean, IsClean, OnlyReads}, Recovery.{frame_at, page_after}};
ghost use Rattle.desk_database.specs.{Log.{CanReplay, HasFrames, IsLogFit, IsVersionFit, first_page_by, stored_page}, Opening.{OnlyLooks, faults_of, image_of}};

use crate::first_page::{FirstPage, PAGE, VERSION_AT, read_first_page};
use sqlite_disk::{Disk, Files};
use sqlite_format::bytes::get_u32;
use sqlite_wal::{Error, PageSize};
use std::alloc::Global;
use std::io;

// The bytes of a log's header, and of a frame's.
const LOG_HEADER: usize = 32;

const FRAME_HEADER: usize = 24;

// 32 bits number no more frames.
const MAX_FRAMES: usize = 0xffff_fffe;

/// Whether a log is that of a database's last opening.
#[derive(Clone, Copy, Debug, PartialEq, Eq)]
pub enum LogFit {
    /// It is, or recovery takes no frame of it, or a copy of the first page from it was cut off.
    Fits,
    /// It may be that of a making: the first page is whole, and has the version of no memory.
    Begun,
    /// It is another's.
    Other,
}

// The last of the frames of these pages that has the first page.
fn last_first_page(numbers: &[u32]) -> Option<usize>
    ensures within { IfSome result (λ at. at < length numbers.now) }
    ensures page { (log db : List ℕ) → HasFrames log numbers.now
        → page_after stored_page log db 1 (length numbers.now) ≡ first_page_by log db result }
{
    let mut last = None;
    for at in 0..numbers.len() {
        last = last_after(last, at, numbers[at]);
    }
    last
}

// The last that has it, once the frame of this page is looked at too.
fn last_after(last: Option<usize>, at: usize, number: u32) -> Option<usize>
    ensures { result ≡ (if number == 1 then Some at else last) }
{
    if number == 1 { Some(at) } else { last }
}

// How a log's version fits that of its file.
fn fit_of(file: u32, log: u32) -> LogFit
    ensures { IsVersionFit file log result }
{
    if log == file || log == file.wrapping_add(1) {
        LogFit::Fits
    } else if file == 0 {
        LogFit::Begun
    } else {
        LogFit::Other
    }
}

// The four bytes at this offset, the highest first.
fn read_number<D: Disk>(file: &mut D, at: usize) -> io::Result<u32>
    requires { IsTrue (D.Disk.is_usable file.old) }
    ensures value { IfOk result (λ number. IsClean D.Disk file.new
        → number ≡ u32_at (D.Disk.seen file.old) at) }
    ensures faults { CountsFaultIf
        (IsClean D.Disk file.old → at + 4 ≤ length (D.Disk.seen file.old))
        result (D.Disk.faults file.old) (D.Disk.faults file.new) }
    ensures same { OnlyReads D.Disk file.old file.new }
{
    let mut bytes = [0; 4];
    file.read_at(at, &mut bytes)?;
    Ok(get_u32(&bytes, 0))
}

// Where the version stands in the page of a frame.
fn version_offset(frame: usize) -> usize
    requires { frame ≤ 0xffff_fffe }
    ensures { result ≡ frame_at stored_page frame + 84 }
{
    LOG_HEADER + frame * (FRAME_HEADER + PAGE) + FRAME_HEADER + VERSION_AT
}

/// What recovery would find of a log: whether it is that of its database's last opening. Nothing is
/// written.
pub fn probe_log<D: Disk>(
    alloc: Global,
    files: &mut Files<D>,
    size: PageSize,
) -> Result<LogFit, Error>
    requires log { IsTrue (D.Disk.is_usable files.old.log) }
    requires db { IsTrue (D.Disk.is_usable files.old.db) }
    requires size { bytes_of size ≡ stored_page }
    ensures fit { IfOk result (λ fit. AreClean D.Disk files.new.log files.new.db
        → IsLogFit (image_of D.Disk files.old) fit) }
    ensures replays { OnOk result (AreClean D.Disk files.new.log files.new.db
        → CanReplay (D.Disk.seen files.old.log)) }
    ensures cause { IfErr result (λ error. AreClean D.Disk files.new.log files.new.db → HasCause
        (faults_of D.Disk files.old) (faults_of D.Disk files.new)
        (RefusesLog stored_page (D.Disk.seen files.old.log)) error) }
    ensures same { OnlyLooks D.Disk files.old files.new }
{
    let numbers = sqlite_wal::probe_frames(alloc, &mut files.log, size)?;
    if numbers.is_empty() {
        return Ok(LogFit::Fits);
    }
    if numbers.len() > MAX_FRAMES {
        return Err(Error::Full);
    }
    let file = match read_first_page(&mut files.db)? {
        FirstPage::Short => return Ok(LogFit::Other),
        FirstPage::Torn => return Ok(LogFit::Fits),
        FirstPage::Whole(version) => version,
    };
    let Some(frame) = last_first_page(&numbers) else {
        return Ok(LogFit::Fits);
    };
    let log = read_number(&mut files.log, version_offset(frame))?;
    Ok(fit_of(file, log))
}
