/// The waveform of two steps of the letter A.
pub const LETTER_A_WAVE: &str = "\
$version foldgneiss $end\n\
$comment one unit of time is one bus step $end\n\
$timescale 1 ns $end\n\
$scope module device $end\n\
$var wire 16 A pc [15:0] $end\n\
$var wire 32 B kind [31:0] $end\n\
$var wire 1 C irq $end\n\
$var wire 1 D asked $end\n\
$var wire 16 E rule [15:0] $end\n\
$var wire 8 F cpu_op [7:0] $end\n\
$var wire 16 G cpu_address [15:0] $end\n\
$var wire 16 H cpu_data [15:0] $end\n\
$var wire 16 I fetch_word [15:0] $end\n\
$var wire 8 J dma_op [7:0] $end\n\
$var wire 16 K dma_address [15:0] $end\n\
$var wire 16 L dma_data [15:0] $end\n\
$var wire 16 M er_min [15:0] $end\n\
$var wire 16 N er_max [15:0] $end\n\
$var wire 16 O or_min [15:0] $end\n\
$var wire 16 P or_max [15:0] $end\n\
$var wire 1 Q exec $end\n\
$var wire 16 R sp [15:0] $end\n\
$var wire 16 S sr [15:0] $end\n\
$var wire 16 T r4 [15:0] $end\n\
$var wire 16 U r5 [15:0] $end\n\
$var wire 16 V r6 [15:0] $end\n\
$var wire 16 W r7 [15:0] $end\n\
$var wire 16 X r8 [15:0] $end\n\
$var wire 16 Y r9 [15:0] $end\n\
$var wire 16 Z r10 [15:0] $end\n\
$var wire 16 [ r11 [15:0] $end\n\
$var wire 16 \\ r12 [15:0] $end\n\
$var wire 16 ] r13 [15:0] $end\n\
$var wire 16 ^ r14 [15:0] $end\n\
$var wire 16 _ r15 [15:0] $end\n\
$var wire 1 ` aux $end\n\
$var wire 1 a timer_flag $end\n\
$var wire 16 b pins [15:0] $end\n\
$var wire 8 c sent [7:0] $end\n\
$var wire 8 d received [7:0] $end\n\
$upscope $end\n\
$enddefinitions $end\n\
#0\n\
$dumpvars\n\
b0 A\n\
b1100010011011110110111101110100 B\n\
0C\n\
0D\n\
b0 E\n\
b1110010 F\n\
b1111111111111110 G\n\
b1100000000000000 H\n\
b0 I\n\
bz J\n\
bz K\n\
bz L\n\
b0 M\n\
b0 N\n\
b0 O\n\
b0 P\n\
0Q\n\
b0 R\n\
b0 S\n\
b0 T\n\
b0 U\n\
b0 V\n\
b0 W\n\
b0 X\n\
b0 Y\n\
b0 Z\n\
b0 [\n\
b0 \\\n\
b0 ]\n\
b0 ^\n\
b0 _\n\
0`\n\
0a\n\
b0 b\n\
bz c\n\
bz d\n\
$end\n\
#1\n\
b1100000000000000 A\n\
b11000110111000001110101 B\n\
b1100110 F\n\
b1100000000000000 G\n\
b100000010110010 H\n\
b100000010110010 I\n\
#2\n";
