ghost use Rattle.std.proofs.Common.{rules};
ghost use Rattle.desk_cli.specs.StateText.{form_names};

use named_value::Named;

/// The form of an entry's line, which its first word tells.
#[derive(Clone, Copy, Debug)]
pub enum LineForm {
    /// As version 1 printed it: the device has not moved.
    VersionOne,
    /// The device is here.
    Here,
    /// It is gone to another desk.
    Gone,
}

impl Named for LineForm {
    ghost names = { form_names };

    fn values() -> &'static [LineForm] {
        &[LineForm::VersionOne, LineForm::Here, LineForm::Gone]
    }

    fn name(self) -> &'static str {
        match self {
            LineForm::VersionOne => "state",
            LineForm::Here => "state2",
            LineForm::Gone => "moved",
        }
    }

    ghost apart = { Prim.search rules };

    ghost words = { Prim.search rules };
}
