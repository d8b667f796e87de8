ghost use Rattle.std.specs.{Prelude.{◌≡◌, ◌<◌, ◌⊎◌, ℕ, List, [], ◌∷◌, Option, Ok, IfOk, IsTrue}, declared.alloc.AllocError.AllocError};
ghost use Rattle.device_types.specs.Report.{ReportFields};
ghost use Rattle.part_definitions.specs.Hmac.{hmac};
ghost use Rattle.report_verifier.specs.{declared.{evidence.Exhibit.TheVariants.MacsDiffer, expect.Expect.Expect}, Acceptance.{IsAccepted, StandsAsExpected}, Collision.{AreBytes, Collides, Exhibits, GivesBytes, HaveOneMac, colliding_pair}, Comparison.{expected_bytes, expected_key, own_bytes}, PolicyGrammar.policy_of, Validity.are_valid_for};
ghost use Rattle.mem_map.specs.Image.{image_byte};
ghost use Rattle.sha2.specs.Sha256.{sha256};

/// The bounds of a policy that is read are valid.
pub fn policies_have_valid_bounds()
    ensures { (text : List ℕ)
        → IfOk (policy_of text) (λ policy.
        IsTrue (are_valid_for policy.version policy.bounds)) }
{}

/// Two unequal messages with one HMAC give a pair of unequal lists of bytes with one digest.
pub fn one_mac_gives_collision()
    ensures { (digest : List ℕ → List ℕ) (key left right : List ℕ)
        → GivesBytes digest
        → AreBytes key
        → AreBytes left
        → AreBytes right
        → HaveOneMac digest key left right
        → Collides digest (colliding_pair digest key left right) }
{}

/// Let a report of a device be accepted. The bytes that it is expected to be of and the device's
/// own have one HMAC; so either what stands in memory is what was expected, or the pair of the two
/// collides, where digest, memory and image are of bytes. A comparison never shows that their HMACs
/// differ.
pub fn accept_is_of_expected_bytes()
    ensures one_mac { (digest : List ℕ → List ℕ) (key : List ℕ) (image : ℕ → Option ℕ)
        (expect : Expect) (bytes : ℕ → ℕ) (report : ReportFields)
        → IsAccepted digest key image expect bytes report
        → hmac digest (expected_key digest key expect)
        (expected_bytes digest key image expect report)
        ≡ hmac digest (expected_key digest key expect) (own_bytes bytes) }
    ensures expected { (digest : List ℕ → List ℕ) (key : List ℕ) (image : ℕ → Option ℕ)
        (expect : Expect) (bytes : ℕ → ℕ) (report : ReportFields)
        → GivesBytes digest
        → ((place : ℕ) → bytes place < 256)
        → ((place : ℕ) → image_byte image place < 256)
        → IsAccepted digest key image expect bytes report
        → StandsAsExpected digest key image expect report bytes
        ⊎ Collides digest (colliding_pair digest (expected_key digest key expect)
        (expected_bytes digest key image expect report) (own_bytes bytes)) }
    ensures compared { (digest : List ℕ → List ℕ) (key : List ℕ) (image : ℕ → Option ℕ)
        (expect : Expect) (bytes : ℕ → ℕ) (report : ReportFields)
        → IsAccepted digest key image expect bytes report
        → Exhibits {Fault = AllocError} digest (expected_key digest key expect)
        (expected_bytes digest key image expect report) (own_bytes bytes) (Ok MacsDiffer)
        → ⊥ }
{}

/// SHA-256 is of bytes, and its definition, which is of numbers, gives these two lists one digest:
/// a pair with a number past 255 is no collision.
pub fn bytes_alone_collide()
    ensures one_digest { sha256 (1 ∷ 0 ∷ []) ≡ sha256 (0 ∷ 256 ∷ []) }
    ensures no_collision { ¬ Collides sha256 (1 ∷ 0 ∷ [], 0 ∷ 256 ∷ []) }
{}
