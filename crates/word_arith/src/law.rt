ghost use Rattle.word_arith.specs.{SignedNumber.{OverflowIsSigned, ComparisonOrders}, Decimal.DecimalSumIsOfNumbers};

/// The law of V in binary sums: it is clear exactly where the result stands for the signed sum.
#[tactic(auto, using(crate::proofs::SignedLemmas::overflow_is_signed))]
pub fn overflow_is_signed()
    ensures { OverflowIsSigned }
{}

/// The law of CMP: its flags order the operands, as unsigned and as signed numbers.
#[tactic(auto, using(crate::proofs::SignedLemmas::comparison_orders))]
pub fn comparison_orders()
    ensures { ComparisonOrders }
{}

/// The law of decimal sums: on numbers in binary-coded decimal they add the numbers.
#[tactic(auto, using(crate::proofs::DecimalLemmas::decimal_sum_is_of_numbers))]
pub fn decimal_sum_is_of_numbers()
    ensures { DecimalSumIsOfNumbers }
{}
