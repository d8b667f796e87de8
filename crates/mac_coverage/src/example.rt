ghost use Rattle.std.specs.Prelude.{◌≡◌, [], ◌∷◌};
ghost use Rattle.device_trace.specs.Example.{attestation, attestation_of, quiet_steps, request_part};
ghost use Rattle.mac_coverage.specs.Example.{all_words, broken_call, exec_standing, first_words, kept_standing, program_and_output, rest_standing, steps_made, words_written};

/// A call that attests and is finished has 133 steps, and wrote its decision and the 16 words of
/// the MAC. From its 76th step on the counter of its request is kept.
pub fn finished_call_writes_mac()
    ensures steps { steps_made attestation (quiet_steps 140 []) ≡ 133 }
    ensures words { words_written attestation (quiet_steps 140 []) ≡ all_words }
    ensures kept_before { kept_standing attestation 82 ≡ 0 ∷ 0 ∷ 0 ∷ 0 ∷ [] }
    ensures kept_after { kept_standing attestation 83 ≡ 1 ∷ 0 ∷ 0 ∷ 0 ∷ [] }
{}

/// The same code and output stand in memory before this call, and after it. EXEC was set, since the
/// program is the executable region, and fell in the call's first step.
pub fn exec_falls_in_first_step()
    ensures rest_before { rest_standing attestation 7 ≡ program_and_output }
    ensures rest_after { rest_standing attestation 140 ≡ program_and_output }
    ensures exec_before { exec_standing attestation 7 ≡ 1 }
    ensures exec_after { exec_standing attestation 8 ≡ 0 }
{}

/// A call that is broken off in its 124th step wrote its decision and the first 7 words.
pub fn broken_call_writes_less()
    ensures steps { steps_made attestation broken_call ≡ 124 }
    ensures words { words_written attestation broken_call ≡ first_words }
{}

/// A call whose request has no new counter has 78 steps and wrote its decision alone, as one does
/// whose request has another token.
pub fn denied_call_writes_decision()
    ensures steps { steps_made (attestation_of (request_part 0 ∷ [])) (quiet_steps 85 []) ≡ 78 }
    ensures old { words_written (attestation_of (request_part 0 ∷ [])) (quiet_steps 85 [])
        ≡ 2 ∷ [] }
    ensures forged { words_written (attestation_of []) (quiet_steps 85 []) ≡ 3 ∷ [] }
{}
