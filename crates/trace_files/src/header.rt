ghost use Rattle.outside_edge.specs.Sink.{Puts, CountsFaults};
ghost use Rattle.trace_files.specs.WaveText.{header};

use outside_edge::{Failed, Sink, put_all};

// A format without a unit of time has none; no step is a nanosecond.
const HEADER: &[u8] = b"\
$version foldgneiss $end
$comment one unit of time is one bus step $end
$timescale 1 ns $end
$scope module device $end
$var wire 16 A pc [15:0] $end
$var wire 32 B kind [31:0] $end
$var wire 1 C irq $end
$var wire 1 D asked $end
$var wire 16 E rule [15:0] $end
$var wire 8 F cpu_op [7:0] $end
$var wire 16 G cpu_address [15:0] $end
$var wire 16 H cpu_data [15:0] $end
$var wire 16 I fetch_word [15:0] $end
$var wire 8 J dma_op [7:0] $end
$var wire 16 K dma_address [15:0] $end
$var wire 16 L dma_data [15:0] $end
$var wire 16 M er_min [15:0] $end
$var wire 16 N er_max [15:0] $end
$var wire 16 O or_min [15:0] $end
$var wire 16 P or_max [15:0] $end
$var wire 1 Q exec $end
$var wire 16 R sp [15:0] $end
$var wire 16 S sr [15:0] $end
$var wire 16 T r4 [15:0] $end
$var wire 16 U r5 [15:0] $end
$var wire 16 V r6 [15:0] $end
$var wire 16 W r7 [15:0] $end
$var wire 16 X r8 [15:0] $end
$var wire 16 Y r9 [15:0] $end
$var wire 16 Z r10 [15:0] $end
$var wire 16 [ r11 [15:0] $end
$var wire 16 \\ r12 [15:0] $end
$var wire 16 ] r13 [15:0] $end
$var wire 16 ^ r14 [15:0] $end
$var wire 16 _ r15 [15:0] $end
$var wire 1 ` aux $end
$var wire 1 a timer_flag $end
$var wire 16 b pins [15:0] $end
$var wire 8 c sent [7:0] $end
$var wire 8 d received [7:0] $end
$upscope $end
$enddefinitions $end
";

/// Puts what stands before the first time: the declarations of the wires.
pub fn print_header<W: Sink>(sink: &mut W) -> Result<(), Failed>
    ensures puts { Puts W.stands sink.old sink.new header result }
    ensures counts { CountsFaults W.faults sink.old sink.new result }
{
    put_all(sink, HEADER)
}
