/// What `--help` prints. `tools/write-reference` writes it.
pub const HELP: &str = "\
usage: foldgneiss play IMAGE SCRIPT KEY STEPS
       foldgneiss dump IMAGE SCRIPT KEY STEPS
       foldgneiss trace IMAGE SCRIPT KEY STEPS
       foldgneiss wave IMAGE SCRIPT KEY STEPS
       foldgneiss list IMAGE
       foldgneiss request KEY CHAL COUNTER
       foldgneiss verify [--all] IMAGE POLICY KEY REPORTS
       foldgneiss round [--all] IMAGE SCRIPT KEY POLICY STEPS
       foldgneiss audit TRACE
       foldgneiss asm SOURCE
       foldgneiss work SEED

play    Runs the firmware for STEPS bus steps. Prints `tx S HH` for a byte sent
        in step S, `reset S R` where step S broke the rule R, `report2 S ..`
        where step S finished an attestation, `denied S D` where it denied a
        request (D is 2 for a counter that is not new, 3 for another token), and
        `end N pc H4 exec E` after the last step.
          foldgneiss play image.hex script.txt key.txt 5000

dump    Prints what play prints, and then RAM, program and vectors as Intel HEX.
          foldgneiss dump image.hex script.txt key.txt 5000

trace   Runs the firmware for STEPS bus steps and prints a trace file: a line
        for each step, in which what lies in the key or in the exclusive stack
        stands as 0.
          foldgneiss trace image.hex script.txt key.txt 5000 > trace.txt

wave    Prints what trace says of a run, and registers, AUX, the timer's flag,
        pins, and the bytes sent and received, as a value change dump (IEEE
        1364), in which one unit of time is one bus step.
          foldgneiss wave image.hex script.txt key.txt 5000 > wave.vcd

list    Prints the instructions, words and bytes of IMAGE, one a line.
          foldgneiss list image.hex

request Prints a request to attest, `request H64 N token H64`: the challenge
        CHAL, the counter COUNTER, and the token of both under KEY. The device
        attests it where the counter is greater than the one that it keeps.
          foldgneiss request key.txt $(openssl rand -hex 32) 1

verify  Prints `verdict I V` for each report line in REPORTS, the I-th of which
        has to answer the I-th request of POLICY. With `--all` each request has
        to get an `accept`, else the last line is `unanswered N`, the first that
        has none; without it fewer reports than requests are no fault.
          foldgneiss verify --all image.hex policy.txt key.txt reports.txt

round   Prints what play prints, and after each report its verdict by POLICY.
        After an `accept` where the device's own memory is not what was expected
        though the MACs agree, `collision HH.. HH..` with two inputs of one
        SHA-256 digest. `--all` is as in verify.
          foldgneiss round image.hex script.txt key.txt policy.txt 5000

audit   Prints `clean N` where each of the N lines of TRACE names the first rule
        that its step breaks and EXEC after it; else, of the first line that
        does not, `offence S rule R` or `offence S exec E` with the right rule
        or value. TRACE may be of any device.
          foldgneiss audit trace.txt

asm     Prints the image of an assembler source as Intel HEX.
          foldgneiss asm firmware.asm > image.hex

work    Runs a workload that is generated from SEED, 1000000 steps of requests
        and of disturbance. Prints one line: how many `tx`, `reset`, `report2`
        and `denied` lines `play` would print, how many of its reports have EXEC
        1, and the SHA-256 of that text.
          foldgneiss work 7

  --help     prints this
  --version  prints the version

Arguments, files in the order in which they are read:
  KEY      the device's key: 128 hexadecimal digits; at most 256 bytes
  IMAGE    firmware, as Intel HEX; at most 1048576 bytes
  SCRIPT   events from outside, each with its step; may be empty; at most
           1048576 bytes
  POLICY   the regions, flag and requests that reports have to answer; at most
           65536 bytes
  REPORTS  lines as play prints them, and reports of version 1; at most 1048576
           bytes
  SOURCE   an assembler source; at most 1048576 bytes
  TRACE    lines as trace prints them; at most 67108864 bytes
  CHAL     64 hexadecimal digits
  COUNTER  a decimal, 1 to 4294967295
  STEPS    a decimal, 1 to 10000000
  SEED     a decimal, 0 to 4294967295

Rules (reset S R):
  X0  the script asked for a reset
  A3  an interrupt could be accepted in the attestation ROM
  A2  the attestation ROM was entered past its beginning
  A1  the attestation ROM was left before its end (the device never does)
  A4  the ROM's return address lay in the key or in the exclusive stack
  K1  the processor read the key
  K2  the processor touched the exclusive stack
  K3  the ROM wrote elsewhere (the device never does)
  K4  the DMA touched the key
  K5  the DMA touched the exclusive stack
  K6  the DMA was active in the attestation ROM
  I1  an illegal instruction word was fetched

Faults (bad FILE: line L: K), the first of the first faulty file:
  of each file
    TooLong     the file is longer than its limit (line 0)
  of script, policy, reports, source
    Utf8        the line is not UTF-8
  of script, policy, reports, trace
    Digit       a character is no digit
    Count       a wrong number of hexadecimal digits
    Extra       a word too many
  of script, reports, trace
    Missing     a word is not there
  of script, policy, reports
    Word        not the keyword that is wanted here
    Range       a number is out of range
  of key, image
    Digit       a character is no hexadecimal digit
  of key
    Missing     fewer than 128 characters
    Extra       more than 128 characters
  of image
    NoColon     the line does not begin with a colon
    Count       the record has not as many digits as its count or its type says
    Check       the bytes of the record do not sum to 0
    RecordType  the type is past 05
    Place       a byte's address is not in 0200..21FF or C000..FFFF
    AfterEnd    a record after the end record
    NoEnd       there is no end record
  of script
    Order       the step is less than that of an earlier line
  of policy
    Missing     a word is not there, or the file ends before `flag`, in version
                1 before `or`
    Order       the lines are not `version`, `er`, `or`, `flag`, then `ask`
                lines, in version 1 `er`, `or`, then `chal` lines
    Twice       an earlier `ask` line has this challenge and this counter
    Bounds      a region is at odd places, ends before it begins, is not wholly
                in RAM or program, or lies on another, the MAC or the metadata
  of reports
    Output      `data` has not the size of the output region
  of source
    Syntax      the line has no reading
    Mnemonic    there is no such instruction or directive, or not with this
                suffix
    Operand     another number or form of operands is wanted
    Twice       the name was given before
    Undefined   a name has no value here
    Range       a value is out of range, or a jump is odd or goes too far
    Place       a byte outside 0200..21FF and C000..FFFF, or a word at an odd
                address
    Overlap     there is a byte at this address already
  of trace
    Word        no `t`, or no kind of step, access or rule
    Range       a number is out of range, or a word is at an odd address
    Order       the number of the step is not that of the lines before it

Exit status, and the line on standard error:
  0   all of the text was printed
  1   all of the text was printed, and a verdict in it is not `accept`, a
      request is unanswered (`--all`), or `audit` found an offence (rejected)
  2   the arguments are no command, STEPS is no decimal in 1..10,000,000, SEED
      none in 0..4,294,967,295, COUNTER none in 1..4,294,967,295, CHAL is not 64
      hexadecimal digits, or an argument is not UTF-8 (words are no command)
  3   one of the files is not there (file is absent)
  4   a file is there and cannot be read: a folder, a path through a file, a
      lack of rights, a broken disk (reading failed)
  5   standard output took only a prefix of the text (writing failed)
  6   the system refused memory; nothing was printed, or in `round` a prefix
      that ends before a `collision` line (no memory)
  7   the key is not 128 hexadecimal digits in one line (bad key: line L: K)
  8   the image's first fault (bad image: line L: K)
  9   the script's first fault (bad script: line L: K)
  10  the policy's first fault (bad policy: line L: K)
  11  the first fault of the reports (bad reports: line L: K)
  12  the source's first fault (bad source: line L: K)
  13  the first fault of the trace file (bad trace: line L: K)
";
