ghost use Rattle.std.specs.{Prelude.{◌≡◌, ◌≤◌, ◌≤ℤ◌, ◌+◌, ℕ, pos, Some, None, IfOk, OnOk, IfSome, IsNone, if◌then◌else◌}, Option.option_copied, Result.result_err};
ghost use Rattle.msp_asm.specs.{Value.value_in, FirstPass.{constant_name, are_same, with_name, is_org, place_of}, FirstPassState.AnswersFault};

use crate::names::Names;
use crate::number::{address_of, word_of};
use crate::scope::Scope;
use crate::space::take_places;
use crate::statement_bytes::{is_of_words, size_of};
use asm_text::{Body, Statement};
use device_types::PROGRAM;
use mem_map::Image;
use std::alloc::{AllocError, Global};
use text_scan::{FaultKind, WordFault};

// The name that a body gives.
fn constant_name<'a>(body: &Body<'a>) -> Option<&'a [u8]>
    ensures { option_copied result ≡ constant_name body.now }
{
    match body {
        Body::Equ(name, _) => Some(name.as_slice()),
        _ => None,
    }
}

// The name before a statement.
fn label_name<'a>(statement: &Statement<'a>) -> Option<&'a [u8]>
    ensures { option_copied result ≡ statement.now.label }
{
    match &statement.label {
        Some(name) => Some(name.as_slice()),
        None => None,
    }
}

// Whether both names are the same.
fn are_same(name: Option<&[u8]>, other: Option<&[u8]>) -> bool
    ensures { result ≡ are_same (option_copied name.entry) (option_copied other.entry) }
{
    match (name, other) {
        (Some(name), Some(other)) => name == other,
        _ => false,
    }
}

// Gives a name a value.
fn insert<'a>(names: &mut Names<'a>, name: Option<&'a [u8]>, value: i32) -> Result<(), AllocError>
    ensures { OnOk result
        (value_in names.new
        ≡ with_name (option_copied name.entry) (Some value) (value_in names.old)) }
{
    match name {
        Some(name) => names.insert(name, value),
        None => Ok(()),
    }
}

// The place behind a statement that names this one, or whose bytes end before `after`.
fn next_place(body: &Body<'_>, constant: Option<i32>, after: u32) -> u32
    ensures value { result ≡ (if is_org body.now then place_of constant else after) }
    ensures most { IfSome constant (λ value. value ≤ℤ pos 65535) → after ≤ 65536 → result ≤ 65536 }
{
    match (body, constant) {
        (Body::Org(_), Some(place)) => u32::try_from(place).unwrap_or(0),
        (Body::Org(_), None) => 0,
        _ => after,
    }
}

/// The first pass over the statements so far: the names that they give, and the place after them.
#[derive(Drop)]
pub struct FirstPass<'a> {
    names: Names<'a>,
    // 65,536 after the last place.
    place: u32,
    // An image with a byte at each place that is taken.
    occupancy: Image,
    ghost in_memory: { place ≤ 65536 },
}

impl<'a> FirstPass<'a> {
    ghost use Rattle.std.specs.{Prelude.{◌≡◌, ◌≤◌, ◌≤ℤ◌, ◌∷◌, ◌||◌, [], ℕ, pos, List, IfOk, OnOk, IfSome, IsNone}, Option.option_copied, Result.result_err};
    ghost use Rattle.asm_text.specs.declared.statement.Statement.{Statement};
    ghost use Rattle.msp_asm.specs.{Value.{value_in, scope_in}, Statement.size_of, FirstPass.{has_value, gives_again, constant_name, constant_value, constant_fault, places_byte, place_fault, next_scope, statement_fault, first_pass_fault}, FirstPassState.{occupies, AnswersFault}, FirstPassStands.{scope_of, FirstPassStandsFor}};

    /// Before the first statement: at C000, without names.
    #[tactic(auto, unfolding(crate::specs::FirstPass::scope_after, crate::specs::FirstPass::is_placed))]
    pub fn new(alloc: Global) -> Result<FirstPass<'a>, AllocError>
        ensures { IfOk result (λ pass. FirstPassStandsFor pass []) }
    {
        Ok(FirstPass {
            names: Names::new(alloc),
            place: u32::from(PROGRAM.first),
            occupancy: Image::new(alloc)?,
        })
    }

    /// The place after the statements so far; 65,536 after the last place.
    pub fn place(&self) -> u32
        ensures { result ≡ (scope_of self.now).here }
    {
        self.place
    }

    /// The names that the statements so far give.
    pub fn into_names(self) -> Names<'a>
        ensures { value_in result ≡ (scope_of self.entry).names }
    {
        self.names
    }

    // What the expressions of the next statement are read in.
    fn scope(&self) -> Scope<'_, 'a>
        ensures { scope_in result ≡ scope_of self.now }
    {
        Scope {
            names: &self.names,
            here: self.place,
        }
    }

    fn has_value(&self, name: Option<&[u8]>) -> bool
        ensures { result ≡ has_value (scope_of self.now).names (option_copied name.entry) }
    {
        match name {
            Some(name) => self.names.get(name).is_some(),
            None => false,
        }
    }

    // Whether a name that the statement gives has a value, or it gives one name twice.
    fn gives_again(&self, statement: &Statement<'a>) -> bool
        ensures { result ≡ gives_again (scope_of self.now) statement.now }
    {
        let label = label_name(statement);
        let constant = constant_name(&statement.body);
        self.has_value(label) || self.has_value(constant) || are_same(label, constant)
    }

    // The value that `.org` or `.equ` names.
    fn constant(&self, body: &Body<'_>) -> Result<Option<i32>, FaultKind>
        ensures fault { result_err result ≡ constant_fault (scope_of self.now) body.now }
        ensures value { IfOk result (λ value. value ≡ constant_value (scope_of self.now) body.now) }
        ensures most { IfOk result (λ value. IfSome value (λ number. number ≤ℤ pos 65535)) }
        ensures none { IfOk result (λ value. IsNone value → IsNone (constant_name body.now)) }
    {
        match body {
            Body::Org(expr) => {
                let place = address_of(self.scope().defined_value(expr)?)?;
                Ok(Some(i32::from(place)))
            }
            Body::Equ(_, expr) => {
                let value = self.scope().defined_value(expr)?;
                word_of(value)?;
                Ok(Some(value as i32))
            }
            _ => Ok(None),
        }
    }

    // Takes the places of a statement's bytes, and answers the place behind them.
    fn take_places(&mut self, body: &Body<'_>) -> Result<u32, FaultKind>
        ensures fault { result_err result
            ≡ place_fault (occupies self.old.occupancy) (scope_of self.old) body.now }
        ensures next { IfOk result (λ next.
            next ≡ (scope_of self.old).here + size_of body.now) }
        ensures most { IfOk result (λ next. next ≤ 65536) }
        ensures scope { scope_of self.new ≡ scope_of self.old }
        ensures taken { OnOk result ((place : ℕ)
            → occupies self.new.occupancy place
            ≡ (places_byte (scope_of self.old) body.now place
            || occupies self.old.occupancy place)) }
    {
        if is_of_words(body) && self.place % 2 != 0 {
            return Err(FaultKind::Place);
        }
        take_places(&mut self.occupancy, self.place, size_of(body))
    }

    // Gives the names of a statement their values, and goes to the place behind it.
    fn pass(
        &mut self,
        statement: &Statement<'a>,
        constant: Option<i32>,
        after: u32,
    ) -> Result<(), AllocError>
        requires value { constant ≡ constant_value (scope_of self.old) statement.now.body }
        requires most { IfSome constant (λ value. value ≤ℤ pos 65535) }
        requires none { IsNone constant → IsNone (constant_name statement.now.body) }
        requires after_fits { after ≤ 65536 }
        requires after { after ≡ (scope_of self.old).here + size_of statement.now.body }
        ensures scope { OnOk result
            (scope_of self.new ≡ next_scope (scope_of self.old) statement.now) }
        ensures taken { OnOk result (occupies self.new.occupancy ≡ occupies self.old.occupancy) }
    {
        insert(&mut self.names, label_name(statement), self.place as i32)?;
        if let Some(value) = constant {
            let name = constant_name(&statement.body);
            insert(&mut self.names, name, value)?;
        }
        self.place = next_place(&statement.body, constant, after);
        Ok(())
    }

    // Takes a further statement, or answers its first fault.
    fn add(&mut self, statement: &Statement<'a>) -> Result<(), WordFault>
        ensures fault { AnswersFault result
            (statement_fault (occupies self.old.occupancy) (scope_of self.old) statement.now) }
        ensures scope { OnOk result
            (scope_of self.new ≡ next_scope (scope_of self.old) statement.now) }
        ensures taken { OnOk result ((place : ℕ)
            → occupies self.new.occupancy place
            ≡ (places_byte (scope_of self.old) statement.now.body place
            || occupies self.old.occupancy place)) }
    {
        if self.gives_again(statement) {
            return Err(WordFault::Kind(FaultKind::Twice));
        }
        let constant = self.constant(&statement.body)?;
        let after = self.take_places(&statement.body)?;
        match self.pass(statement, constant, after) {
            Ok(()) => Ok(()),
            Err(error) => Err(WordFault::Memory(error)),
        }
    }

    /// Takes a further statement, or answers its first fault.
    pub fn take(&mut self, statement: &Statement<'a>) -> Result<(), WordFault>
        ensures fault { (earlier : List Statement)
            → FirstPassStandsFor self.old earlier
            → AnswersFault result (first_pass_fault earlier statement.now) }
        ensures taken { (earlier : List Statement)
            → FirstPassStandsFor self.old earlier
            → OnOk result (FirstPassStandsFor self.new (statement.now ∷ earlier)) }
    {
        self.add(statement)
    }
}
