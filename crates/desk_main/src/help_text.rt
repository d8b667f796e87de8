/// What `--help` prints. `tools/write-reference` writes it.
pub const HELP: &str = "\
usage: foldgneiss desk KEYS IMAGE POLICY [MEMORY]
       foldgneiss found MEMORY DESK
       foldgneiss states MEMORY
       foldgneiss remember STATES MEMORY DESK
       foldgneiss move MEMORY NAME DESK
       foldgneiss adopt MOVED MEMORY

desk     Answers each line of standard input with one line, at once. `ask NAME
         R`, in which R numbers the line, is answered by a request, `request
         NAME R H64 N token H64`, and `give NAME R report2 ..` by a verdict on
         the report, `verdict NAME R V`. What it must not forget is in MEMORY
         before a reply is out, and a desk that is started anew with it goes on;
         without MEMORY it is forgotten at the end.
           foldgneiss desk keys.txt image.hex policy.txt desk.db

found    Makes the new MEMORY of the desk of the name DESK, without a device. No
         other command but remember makes one.
           foldgneiss found desk.db north

states   Prints a line for each device in MEMORY, the oldest first, `state2 NAME
         moves M key H32 count N outstanding N last R ANSWER`: how often it
         moved, the mark of its key, how many requests were made, the counter of
         the outstanding one, and the last line's number and answer; `none`
         where there is none. Of a device that is gone the line begins with
         `moved NAME to DESK`. No desk may run over MEMORY meanwhile.
           foldgneiss states desk.db > states.txt

remember Makes the new MEMORY of the desk of the name DESK, of lines as states
         prints them.
           foldgneiss remember states.txt desk.db north

move     Notes in MEMORY that the device NAME is gone to the desk of the name
         DESK, and then prints a line for each key that it had, `moved NAME to
         DESK moves M key ..`, as states does. Once more it prints the same.
           foldgneiss move desk.db pump_1 south > moved.txt

adopt    Takes the devices of lines that move printed into MEMORY, which is that
         of the desk that they name: all of them, or none. Once more it changes
         nothing.
           foldgneiss adopt moved.txt desk.db

  --help     prints this
  --version  prints the version

Arguments, files in the order in which they are read:
  KEYS     a desk's devices, each by its name and its key; at most 262144 bytes
  IMAGE    firmware, as Intel HEX; at most 1048576 bytes
  POLICY   the regions, flag and requests that reports have to answer; at most
           65536 bytes
  STATES   lines as states prints them; at most 4194304 bytes
  MOVED    lines as move prints them, of any number of devices; at most 4194304
           bytes
  MEMORY   a file that keeps the states of a desk's devices, made by found
  NAME     a device, by its name: 1 to 32 letters, digits and _
  DESK     the name of a desk, 1 to 32 letters, digits and _; no two have the
           same

Faults (bad FILE: line L: K), the first of the first faulty file:
  of each file
    TooLong     the file is longer than its limit (line 0)
  of keys, policy, states, moved
    Utf8        the line is not UTF-8
    Extra       a word too many
  of keys, states, moved
    Missing     a word is not there
  of states, moved
    Word        not the keyword that is wanted here, or no answer
    Digit       a character of a name is no letter, digit or `_`, or one of a
                key or a number no digit
    Count       a name has more than 32 characters, or the mark of a key not 32
                digits
    Range       a number is out of range, or a counter is greater than the
                count, or the count is at its end
  of keys
    Word        not the keyword that is wanted here
    Digit       a character of a name is no letter, digit or `_`, or one of a
                key no digit
    Count       a name has more than 32 characters, or a key not 128 digits
    Twice       the name or the key was given before
  of image
    NoColon     the line does not begin with a colon
    Digit       a character is no hexadecimal digit
    Count       the record has not as many digits as its count or its type says
    Check       the bytes of the record do not sum to 0
    RecordType  the type is past 05
    Place       a byte's address is not in 0200..21FF or C000..FFFF
    AfterEnd    a record after the end record
    NoEnd       there is no end record
  of policy
    Missing     a word is not there, or the file ends before `flag`, in version
                1 before `or`
    Word        not the keyword that is wanted here; or the policy of a `desk`
                is of version 1 (line 0)
    Digit       a character is no digit
    Count       a wrong number of hexadecimal digits
    Range       a number is out of range
    Order       the lines are not `version`, `er`, `or`, `flag`, then `ask`
                lines, in version 1 `er`, `or`, then `chal` lines
    Twice       an earlier `ask` line has this challenge and this counter
    Bounds      a region is at odd places, ends before it begins, is not wholly
                in RAM or program, or lies on another, the MAC or the metadata
  of states
    Twice       the line before it of this device has this key, or the key
                stands under another name
    Order       the count, the number of the last line or the moves are less
                than in the line before it of this device
  of moved
    Twice       the line before it of this device has this key, or the key
                stands under another name, in the text or in MEMORY
    Order       the line falls behind the one before it of its device, or the
                device is in MEMORY, or has moved on since
    Place       the line is of no move to the desk of MEMORY

Exit status, and the line on standard error:
  0   all of the text was printed
  2   the arguments are no command, DESK or NAME is not 1 to 32 letters, digits
      and `_`, or an argument is not UTF-8 (words are no command)
  3   one of the files is not there (file is absent)
  4   a file is there and cannot be read: a folder, a path through a file, a
      lack of rights, a broken disk; or standard input of `desk` cannot be read
      (reading failed)
  5   standard output took only a prefix of the text (writing failed)
  6   the system refused memory; nothing was printed, or in `desk` the replies
      to all lines before a report, or to some lines where it was refused for
      MEMORY (no memory)
  8   the image's first fault (bad image: line L: K)
  10  the policy's first fault (bad policy: line L: K)
  14  the first fault of a desk's keys (bad keys: line L: K)
  15  `desk` took 1,073,741,824 bytes of standard input (input is too long)
  16  M says it: there is no MEMORY, or none yet; it is no memory of a desk, or
      is damaged; the log beside it is not its own; it was to be made, and is
      there; a key of KEYS stands under another name in it; a device has gone to
      another desk, or cannot go (bad memory: M)
  17  another desk, another of these commands or sqlite3 has MEMORY open (memory
      is in use)
  18  MEMORY cannot be opened, made, read or written: no such folder, a lack of
      rights, a full or broken disk; no reply was put that it does not keep (the
      memory could not be written)
  19  the first fault of a text of states or of moves (bad states: line L: K)
";
