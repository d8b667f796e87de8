use device_types::Rule;

/// How a line differs from what the rules say of it.
#[derive(Clone, Copy, Debug, PartialEq, Eq)]
pub enum Offence {
    /// The first rule that the step breaks is this one.
    RuleIs(Option<Rule>),
    /// The rule is right, and the EXEC flag after the step is this.
    ExecIs(bool),
}
