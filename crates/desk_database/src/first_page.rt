ghost use Rattle.std.specs.Prelude.{◌≡◌, ◌↔◌, ◌+◌, IfOk, IsTrue, length};
ghost use Rattle.sqlite_disk.specs.Disk.{CountsFault};
ghost use Rattle.sqlite_pool.specs.Stored.{sum_bytes};
ghost use Rattle.sqlite_wal.specs.Reads.{IsClean, OnlyReads};
ghost use Rattle.desk_database.specs.Log.{EndsWithSum, IsFirstPage};

use sqlite_disk::Disk;
use sqlite_format::bytes::get_u32;
use sqlite_wal::checksum_of;
use std::io;

/// The bytes of a page, and of those before its sum.
pub const PAGE: usize = 4096;

const SUMMED: usize = 4088;

/// Where SQLite's user version stands in the first page, behind its start.
pub const VERSION_AT: usize = 60;

// The bytes of a database's header.
const HEADER: usize = 100;

/// What a database file has as its first page.
#[derive(Clone, Copy)]
pub enum FirstPage {
    /// The file is shorter than a header.
    Short,
    /// The page lacks bytes, or its sum is of others: a copy of it was cut off.
    Torn,
    /// It is whole, and says this version.
    Whole(u32),
}

// SQLite's sum of these bytes.
fn sum_of(bytes: &[u8]) -> [u8; 8]
    ensures { result ≡ sum_bytes bytes.now }
{
    let (first, second) = checksum_of(false, (0, 0), bytes);
    let (a, b) = (first.to_le_bytes(), second.to_le_bytes());
    [a[0], a[1], a[2], a[3], b[0], b[1], b[2], b[3]]
}

// Whether the bytes of a page behind so many are the sum of those.
fn ends_with_sum(page: &[u8], size: usize) -> bool
    requires { length page.now ≡ size + 8 }
    ensures { IsTrue result ↔ EndsWithSum size page.now }
{
    page[size..] == sum_of(&page[..size])[..]
}

/// Looks at the first page of a database file.
pub fn read_first_page<D: Disk>(db: &mut D) -> io::Result<FirstPage>
    requires { IsTrue (D.Disk.is_usable db.old) }
    ensures page { IfOk result (λ page. IsClean D.Disk db.new
        → IsFirstPage (D.Disk.seen db.old) page) }
    ensures faults { CountsFault result (D.Disk.faults db.old) (D.Disk.faults db.new) }
    ensures same { OnlyReads D.Disk db.old db.new }
{
    let long = db.len()?;
    if long < HEADER {
        return Ok(FirstPage::Short);
    }
    if long < PAGE {
        return Ok(FirstPage::Torn);
    }
    let mut page = [0; PAGE];
    db.read_at(0, &mut page)?;
    if ends_with_sum(&page, SUMMED) {
        Ok(FirstPage::Whole(get_u32(&page, VERSION_AT)))
    } else {
        Ok(FirstPage::Torn)
    }
}
