/// What `--help` prints. `tools/write-reference` writes it.
pub const HELP: &str = "\
usage: foldgneiss debug IMAGE SCRIPT KEY
       foldgneiss live IMAGE KEY

debug   Answers the packets of GDB's remote protocol on standard input, each at
        once: GDB drives the run that `play` prints, by instructions and source
        lines, breakpoints and watches, forwards and backwards, and stops before
        the instruction that would reset the device. Nothing that it asks
        changes the run. In GDB its command is `target remote | foldgneiss debug
        image.hex script.txt key.txt`.
          foldgneiss debug image.hex script.txt key.txt

live    Powers the firmware on, and answers each line of standard input before
        it reads more. `at N ..`, as in a script, happens in step N; `run N`
        goes on to N steps, and prints what play prints of them, and `at N pc H4
        exec E`; `registers` and `memory H4 C` show what stands in it; `refused
        L K` answers line L where it has the fault K. `end N pc H4 exec E` comes
        at the end of the input.
          foldgneiss live image.hex key.txt

  --help     prints this
  --version  prints the version

Arguments, files in the order in which they are read:
  KEY      the device's key: 128 hexadecimal digits; at most 256 bytes
  IMAGE    firmware, as Intel HEX; at most 1048576 bytes
  SCRIPT   events from outside, each with its step; may be empty; at most
           1048576 bytes

Rules (reset S R):
  X0  the script asked for a reset
  A3  an interrupt could be accepted in the attestation ROM
  A2  the attestation ROM was entered past its beginning
  A1  the attestation ROM was left before its end (the device never does)
  A4  the ROM's return address lay in the key or in the exclusive stack
  K1  the processor read the key
  K2  the processor touched the exclusive stack
  K3  the ROM wrote elsewhere (the device never does)
  K4  the DMA touched the key
  K5  the DMA touched the exclusive stack
  K6  the DMA was active in the attestation ROM
  I1  an illegal instruction word was fetched

Faults (bad FILE: line L: K), the first of the first faulty file:
  of key, image, script
    TooLong     the file is longer than its limit (line 0)
  of key, image
    Digit       a character is no hexadecimal digit
  of key
    Missing     fewer than 128 characters
    Extra       more than 128 characters
  of image
    NoColon     the line does not begin with a colon
    Count       the record has not as many digits as its count or its type says
    Check       the bytes of the record do not sum to 0
    RecordType  the type is past 05
    Place       a byte's address is not in 0200..21FF or C000..FFFF
    AfterEnd    a record after the end record
    NoEnd       there is no end record
  of script
    Utf8        the line is not UTF-8
    Missing     a word is not there
    Word        not the keyword that is wanted here
    Digit       a character is no digit
    Count       a wrong number of hexadecimal digits
    Range       a number is out of range
    Extra       a word too many
    Order       the step is less than that of an earlier line

Exit status, and the line on standard error:
  0   all of the text was printed
  2   the arguments are no command, or an argument is not UTF-8 (words are no
      command)
  3   one of the files is not there (file is absent)
  4   a file is there and cannot be read: a folder, a path through a file, a
      lack of rights, a broken disk; or standard input of `debug` or `live`
      cannot be read (reading failed)
  5   standard output took only a prefix of the text (writing failed)
  6   the system refused memory; nothing was printed, or in `debug` a prefix of
      the answers, or in `live` the answers to all lines before one (no memory)
  7   the key is not 128 hexadecimal digits in one line (bad key: line L: K)
  8   the image's first fault (bad image: line L: K)
  9   the script's first fault (bad script: line L: K)
  15  `debug` or `live` took 1,073,741,824 bytes of standard input (input is too
      long)
";
