ghost use Rattle.std.specs.Prelude.{◌≡◌, [], ◌∷◌};
ghost use Rattle.part_definitions.specs.TrustedFlag.{aux};
ghost use Rattle.device_trace.specs.{Blank.blank, Start.without_key, Text.play_text, Trace.{released_words, trace}, Example.{counting_words, upwards}};
ghost use Rattle.key_isolation.specs.{AttestedPlay.{attested_text, attested_words, attesting_start, requested_image}, Example.{attestation_start, last_value, until_key_read, whole_call}};

/// A call reads the second word of the key, which the trace has and the blanked trace has not.
pub fn blank_hides_key_word()
    ensures real { last_value (trace (attestation_start 0) until_key_read) ≡ 0x0302 }
    ensures hidden { last_value (blank (trace (attestation_start 0) until_key_read)) ≡ 0 }
{}

/// Two keys, under a digest that gives both the same: their calls release the same decision and the
/// same 16 words.
pub fn two_keys_release_alike()
    ensures first { released_words (attestation_start 0) whole_call ≡ 1 ∷ counting_words }
    ensures second { released_words (attestation_start 100) whole_call ≡ 1 ∷ counting_words }
{}

/// A call that attests under SHA-256, on a request whose token another program computed: it
/// releases the decision 1 and the words of the MAC that this program computed, and its report
/// carries that MAC. Without a key, where the calls release these words, the play prints the same.
/// Under another key the token is not right, and the call releases its denial alone.
pub fn attested_play_looks_keyless()
    ensures released { released_words (attesting_start (upwards 0 64)) whole_call ≡ attested_words }
    ensures printed { play_text (attesting_start (upwards 0 64)) whole_call ≡ attested_text }
    ensures keyless { play_text (without_key aux attested_words requested_image) whole_call
        ≡ attested_text }
    ensures other { released_words (attesting_start (upwards 1 64)) whole_call ≡ 3 ∷ [] }
{}
