ghost use Rattle.std.specs.Prelude.{◌≡◌, Some, None};
ghost use Rattle.request_freshness.specs.Example.{call_broken_between, decision_then, first_call, high_word_written, kept_then, low_word_written, next_request, replay, steps_then};

/// A request is attested and its counter is kept; at once again it is denied.
pub fn replay_is_denied()
    ensures attested { decision_then first_call ≡ Some 1 }
    ensures kept { kept_then first_call ≡ 0xFFFF }
    ensures denied { decision_then replay ≡ Some 2 }
    ensures same { kept_then replay ≡ 0xFFFF }
{}

/// The counter 10000 after FFFF: between the two writes 1FFFF is kept, which is above both, and
/// then the counter of the request. A reset between the writes leaves 1FFFF.
pub fn high_word_comes_first()
    ensures steps { steps_then high_word_written ≡ 75 }
    ensures before { kept_then next_request ≡ 0xFFFF }
    ensures between { kept_then high_word_written ≡ 0x1FFFF }
    ensures after { kept_then low_word_written ≡ 0x10000 }
    ensures broken { kept_then call_broken_between ≡ 0x1FFFF }
    ensures undecided { decision_then call_broken_between ≡ None }
{}
