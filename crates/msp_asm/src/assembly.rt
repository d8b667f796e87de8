ghost use Rattle.std.specs.{Prelude.{◌≡◌, ◌++◌, ◌∷◌, [], ℕ, IfOk, IfErr, OnOk, IsTrue, reverse, length, ◌+◌}, Option.option_or, Result.result_err};
ghost use Rattle.part_definitions.specs.Memory.{is_image_place};
ghost use Rattle.mem_map.specs.Image.{byte_in};
ghost use Rattle.text_scan.specs.Reader.{Reads, value_as};
ghost use Rattle.msp_asm.specs.{Value.scope_in, Statement.bytes_of, FirstPass.{first_fault, first_pass_fault}, FirstPassState.AnswersFault, SecondPass.{byte_from, byte_placed, second_pass_fault, image_of}, Assembly.{LayoutStandsFor, AnswersAt, IsMemory}};

use crate::first_pass::FirstPass;
use crate::image_writer::place_bytes;
use crate::names::Names;
use crate::scope::Scope;
use asm_text::Statement;
use mem_map::Image;
use std::alloc::{AllocError, Global};
use text_scan::{TextFault, WordFault};

/// What the first pass over all statements gives: the names, and the place before each statement.
#[derive(Drop)]
pub struct Layout<'a> {
    names: Names<'a>,
    places: Vec<u32>,
}

impl<'a> Layout<'a> {
    ghost use Rattle.std.specs.Prelude.{◌≡◌, ◌<◌, length, slice_index};
    ghost use Rattle.msp_asm.specs.Value.{value_in, scope_in};

    // What the statement at an index is read in.
    fn scope(&self, i: usize) -> Scope<'_, 'a>
        requires { i < length self.now.places.items }
        ensures { scope_in result
            ≡ record {
              names = value_in self.now.names;
              here = slice_index self.now.places.items i;
            } }
    {
        Scope {
            names: &self.names,
            here: self.places[i],
        }
    }
}

// Puts a place after the others.
fn push_place(places: &mut Vec<u32>, place: u32) -> Result<(), TextFault>
    ensures ok { OnOk result (places.new.items ≡ places.old.items ++ place ∷ []) }
    ensures count { OnOk result (length places.new.items ≡ length places.old.items + 1) }
    ensures memory { IfErr result (λ fault. IsMemory fault) }
{
    match places.push(place) {
        Ok(()) => Ok(()),
        Err(_) => Err(TextFault::Memory(AllocError)),
    }
}

// The names of all statements and their places, or the first fault of the first pass.
fn names_and_places<'a>(
    alloc: Global,
    statements: &[Statement<'a>],
) -> Result<Layout<'a>, TextFault>
    ensures ok { IfOk result (λ layout. LayoutStandsFor layout statements.now) }
    ensures fault { AnswersAt result (first_fault first_pass_fault (reverse statements.now)) }
{
    let mut pass = match FirstPass::new(alloc) {
        Ok(pass) => pass,
        Err(error) => return Err(TextFault::Memory(error)),
    };
    let mut places = Vec::new(alloc);
    for statement in statements {
        if let Err(fault) = push_place(&mut places, pass.place()) {
            return Err(fault);
        }
        if let Err(fault) = pass.take(statement) {
            return Err(fault.in_line(statement.line));
        }
    }
    Ok(Layout {
        names: pass.into_names(),
        places,
    })
}

// Puts the bytes of a statement, or answers its first fault.
fn place_statement(
    alloc: Global,
    scope: &Scope<'_, '_>,
    statement: &Statement<'_>,
    image: &mut Image,
) -> Result<(), WordFault>
    ensures fault { AnswersFault result
        (result_err (bytes_of (scope_in scope.now) statement.now.body)) }
    ensures bytes { OnOk result ((place : ℕ) → IsTrue (is_image_place place)
        → byte_in image.new place
        ≡ option_or
        (byte_from scope.now.here (bytes_of (scope_in scope.now) statement.now.body) place)
        (byte_in image.old place)) }
{
    match scope.bytes_of(alloc, &statement.body) {
        Ok(bytes) => {
            place_bytes(image, scope.here, bytes.as_slice());
            Ok(())
        }
        Err(fault) => Err(fault),
    }
}

// The image of all statements, or the first fault of the second pass.
#[tactic(auto, unfolding(crate::specs::SecondPass::byte_placed))]
fn image_of(
    alloc: Global,
    statements: &[Statement<'_>],
    layout: &Layout<'_>,
) -> Result<Image, TextFault>
    requires { LayoutStandsFor layout.now statements.now }
    ensures fault { AnswersAt result
        (first_fault (second_pass_fault (reverse statements.now)) (reverse statements.now)) }
    ensures bytes { IfOk result (λ image. (place : ℕ) → IsTrue (is_image_place place)
        → byte_in image place
        ≡ byte_placed (reverse statements.now) (reverse statements.now) place) }
{
    let mut image = match Image::new(alloc) {
        Ok(image) => image,
        Err(error) => return Err(TextFault::Memory(error)),
    };
    for i in 0..statements.len() {
        let statement = &statements[i];
        let scope = layout.scope(i);
        if let Err(fault) = place_statement(alloc, &scope, statement, &mut image) {
            return Err(fault.in_line(statement.line));
        }
    }
    Ok(image)
}

/// The image of statements, or the first fault of the two passes over them.
pub fn assemble_statements(alloc: Global, statements: &[Statement<'_>]) -> Result<Image, TextFault>
    ensures { Reads (value_as byte_in result) (image_of statements.now) }
{
    let layout = match names_and_places(alloc, statements) {
        Ok(layout) => layout,
        Err(fault) => return Err(fault),
    };
    image_of(alloc, statements, &layout)
}
