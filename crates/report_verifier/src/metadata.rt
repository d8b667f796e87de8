ghost use Rattle.std.specs.Prelude.{◌≡◌, ◌++◌, [], length};
ghost use Rattle.word_arith.specs.Number.{bit_of};
ghost use Rattle.device_types.specs.Report.{fields_of};
ghost use Rattle.report_verifier.specs.{Expectation.{common_metadata, request_metadata, expected_metadata}, Validity.metadata_len};

use crate::byte_list::ByteList;
use crate::expect::Expect;
use device_types::{ReportView, Version};
use hmac_core::{Digest32, request_token};

/// The most bytes that metadata have: those of version 2.
pub const MOST_METADATA: usize = 80;

/// The metadata that a report shall be made of.
pub fn expected_metadata<D: Digest32>(
    key: &[u8; 64],
    expect: &Expect,
    report: &ReportView<'_>,
) -> ByteList<MOST_METADATA>
    ensures metadata { result
        ≡ expected_metadata D.hash.digest_of key.now expect.now (fields_of report.now) }
    ensures len { length result ≡ metadata_len expect.now.version }
{
    let mut metadata = ByteList::new();
    push_first(&mut metadata, expect, report.exec);
    push_request::<D>(&mut metadata, key, expect, report.aux);
    metadata
}

// Challenge, bounds and EXEC word.
fn push_first(metadata: &mut ByteList<MOST_METADATA>, expect: &Expect, exec: bool)
    ensures { metadata.old ≡ [] → metadata.new ≡ common_metadata expect.now exec }
{
    metadata.push(&expect.chal);
    metadata.push_word(expect.bounds.er_min);
    metadata.push_word(expect.bounds.er_max);
    metadata.push_word(expect.bounds.or_min);
    metadata.push_word(expect.bounds.or_max);
    metadata.push_word(flag_word(exec));
}

// A flag as a word.
fn flag_word(flag: bool) -> u16
    ensures { result ≡ bit_of flag }
{
    if flag { 1 } else { 0 }
}

// In version 2 AUX word, counter and token.
fn push_request<D: Digest32>(
    metadata: &mut ByteList<MOST_METADATA>,
    key: &[u8; 64],
    expect: &Expect,
    aux: bool,
)
    ensures request { length metadata.old ≡ 42
        → metadata.new
        ≡ metadata.old
        ++ request_metadata expect.now.version D.hash.digest_of key.now expect.now aux }
    ensures len { length metadata.old ≡ 42
        → length metadata.new ≡ metadata_len expect.now.version }
{
    match expect.version {
        Version::One => {}
        Version::Two => {
            let count = expect.count.to_le_bytes();
            metadata.push_word(flag_word(aux));
            metadata.push(&count);
            metadata.push(&request_token::<D>(key, &expect.chal, &count));
        }
    }
}
