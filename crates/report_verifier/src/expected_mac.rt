ghost use Rattle.std.specs.Prelude.{◌≡◌, ◌≤◌, ◌+◌, ◌-◌, ◌++◌, ℕ, List, option_map, IsTrue};
ghost use Rattle.device_types.specs.Report.{fields_of};
ghost use Rattle.hmac_core.specs.Hmac.{HmacStandsFor};
ghost use Rattle.mem_map.specs.Image.{byte_in, image_byte};
ghost use Rattle.part_definitions.specs.{Hmac.hmac, Memory.bytes_from};
ghost use Rattle.report_verifier.specs.{Expectation.{image_code, report_output, expected_mac}, Validity.are_valid_for};

use crate::byte_list::ByteList;
use crate::expect::Expect;
use crate::image_code::push_code;
use crate::metadata::expected_metadata;
use device_types::ReportView;
use hmac_core::{Digest32, Hmac, hmac};
use mem_map::Image;

// The most bytes of code that the HMAC takes at once: a block of the digest.
const PIECE: u16 = 64;

// The HMAC takes the image's code.
fn take_code<D: Digest32>(mac: &mut Hmac<D>, image: &Image, expect: &Expect)
    requires { IsTrue (are_valid_for expect.now.version expect.now.bounds) }
    ensures { (key message : List ℕ)
        → HmacStandsFor D.hash mac.old key message
        → HmacStandsFor D.hash mac.new key
        (message ++ image_code (byte_in image.now) expect.now.bounds) }
{
    let end = expect.bounds.er_max + 2;
    let mut place = expect.bounds.er_min;
    while end - place > PIECE {
        take_piece(mac, image, place, place + PIECE);
        place += PIECE;
    }
    take_piece(mac, image, place, end);
}

// The HMAC takes the image's bytes from one place up to another.
fn take_piece<D: Digest32>(mac: &mut Hmac<D>, image: &Image, first: u16, end: u16)
    requires order { first ≤ end }
    requires few { end - first ≤ 64 }
    ensures { (key message : List ℕ)
        → HmacStandsFor D.hash mac.old key message
        → HmacStandsFor D.hash mac.new key
        (message ++ bytes_from (image_byte (byte_in image.now)) first (end - first)) }
{
    let mut piece = ByteList::<64>::new();
    push_code(&mut piece, image, first, end);
    mac.update(piece.as_slice());
}

/// No output counts as an output of no bytes.
pub fn output_bytes<'a>(output: Option<&'a [u8]>) -> &'a [u8]
    ensures { result.now ≡ report_output (option_map (λ bytes. bytes.now) output.entry) }
{
    match output {
        None => &[],
        Some(bytes) => bytes,
    }
}

// The MAC under a derived key of metadata, the image's code, and an output.
fn derived_mac<D: Digest32>(
    derived_key: &[u8; 32],
    metadata: &[u8],
    image: &Image,
    expect: &Expect,
    output: &[u8],
) -> [u8; 32]
    requires { IsTrue (are_valid_for expect.now.version expect.now.bounds) }
    ensures { result ≡ hmac D.hash.digest_of derived_key.now
        (metadata.now ++ (image_code (byte_in image.now) expect.now.bounds ++ output.now)) }
{
    let mut mac = Hmac::<D>::new(derived_key);
    mac.update(metadata);
    take_code(&mut mac, image, expect);
    mac.update(output);
    mac.finish()
}

/// The MAC that a report shall have.
pub fn expected_mac<D: Digest32>(
    key: &[u8; 64],
    image: &Image,
    expect: &Expect,
    report: &ReportView<'_>,
) -> [u8; 32]
    requires { IsTrue (are_valid_for expect.now.version expect.now.bounds) }
    ensures { result
        ≡ expected_mac D.hash.digest_of key.now (byte_in image.now) expect.now
        (fields_of report.now) }
{
    let derived_key = hmac::<D>(key, &expect.chal);
    let metadata = expected_metadata::<D>(key, expect, report);
    let output = output_bytes(report.output);
    derived_mac::<D>(&derived_key, metadata.as_slice(), image, expect, output)
}
