ghost use Rattle.std.specs.Prelude.{◌≡◌, IfOk, length};
ghost use Rattle.msp_decode.specs.{declared.instr.Instr.Instr, Completion.words_of, Law.AreReadAs};
ghost use Rattle.asm_text.specs.declared.body.Body.{Body};
ghost use Rattle.msp_asm.specs.{Value.Scope, Statement.{size_of, bytes_of, IsNamed}};

use msp_decode::words_are_read;

/// A statement places as many bytes as its size says, whatever its names are given later.
#[tactic(auto, using(crate::proofs::StatementSize::bytes_have_their_size))]
pub fn bytes_have_their_size()
    ensures { (scope : Scope) (body : Body)
        → IfOk (bytes_of scope body) (λ bytes. length bytes ≡ size_of body) }
{}

/// The words of an instruction that a statement names are read as that instruction.
pub fn named_instructions_are_read()
    ensures { (scope : Scope) (body : Body) (instr : Instr)
        → IsNamed scope body instr
        → AreReadAs (words_of instr) instr }
{
    words_are_read();
}
