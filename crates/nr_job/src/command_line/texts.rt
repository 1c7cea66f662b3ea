//! The texts of the options that name files, and the long help of each: what is accepted and what is rejected, with the
//! cause and what to do about it. `tests/generated --write` makes them from tools/linksim_tools/common/faults.py.

pub(super) const TABLE: &str = "The shift table, as comma-separated values (- for standard input)";

pub(super) const TABLE_LONG: &str =
    "The shift table, as comma-separated values (- for standard input)

The first record may be a header that begins with graph. Each other record has eleven numbers:
the base graph, 1 or 2; the row, 0-45 (graph 2: 0-41); the column, 0-67 (graph 2: 0-51); and the shift
values of the eight lifting-size sets, 0-65535.

Rejected with status 1 and 'linksim: refused: table' followed by
  Read          the file cannot be opened or read; check its path and permissions, and that it is not a folder
  TooLong       the file has more than 4,194,304 octets; check that it is the file that you meant
  Csv N         record N has a different number of fields than record 1; give each record eleven
  Fields        record 1 does not have eleven fields; separate them by commas, with graph, row and column first
  Number N      a field of record N is not 1 to 10 digits; leave no field empty, and leave out entries that do not exist
  Range N       a number of record N is out of range; count rows, columns and sets from 0
  Twice N       record N has the graph, row and column of an earlier record; delete one of the two
  Empty         no record has an entry; check that it is the file that you meant
  Core N        rows 0-3 of base graph N do not have the shape of the standard's; compare them with the standard
  Extension N   a row i >= 4 of base graph N does not end in one 0, at column 22+i (graph 2: 10+i); compare the rows
  MissingRow N  base graph N has a row without an entry; give it all 46 rows, or 42 in base graph 2";

pub(super) const SETTINGS: &str =
    "The code rate and the limit of the circular buffer, as TOML (- for standard input)";

pub(super) const SETTINGS_LONG: &str =
    "The code rate and the limit of the circular buffer, as TOML (- for standard input)

rate2048 = 1-2048: twice the target code rate x 1024 of the MCS tables of TS 38.214
lbrm = 0-4294967295, optional: TBS_LBRM, which limits the circular buffer (TS 38.212, 5.4.2.1)

Rejected with status 1 and 'linksim: refused: settings' followed by
  Read     the file cannot be opened or read; check its path and permissions, and that it is not a folder
  TooLong  the file has more than 65,536 octets; check that it is the file that you meant
  Toml     the text is not TOML; write lines such as rate2048 = 1024
  Unknown  there is a key other than rate2048 and lbrm; delete it, or correct its name
  Missing  the key rate2048 is missing; write rate2048 = and a number from 1 to 2048
  Kind     rate2048 or lbrm is not an integer; write the rate 0.5 as 1024, without quotes
  Range    rate2048 is not 1-2048, or lbrm is not 0-4294967295; write a number in that range

Together with the blocks: rejected with status 1 and 'linksim: refused: block N' followed by
  Graph     the table lacks the base graph that this block and rate need; linksim check shows which it has
  NoBuffer  lbrm leaves no bit of a code block in the buffer; leave lbrm out, or choose a greater one";

pub(super) const BLOCKS: &str =
    "The transport blocks, one per line in hexadecimal (- for standard input)";

pub(super) const BLOCKS_LONG: &str =
    "The transport blocks, one per line in hexadecimal (- for standard input)

At most 256 lines, with two hexadecimal digits of either case for each octet and at most 327,680 digits.

Rejected with status 1 and 'linksim: refused: blocks' followed by
  Read        the file cannot be opened or read; check its path and permissions, and that it is not a folder
  TooLong     the file has more than 100,000,000 octets; check that it is the file that you meant
  Empty       the file has no line; write at least one transport block
  TooMany     the file has more than 256 lines; write each block on a single line (xxd -p -c 0)
  Blank N     line N is empty; delete it, after which the blocks that follow count one less
  Digit N     line N has a character that is not a hexadecimal digit; write no 0x, spaces or comments
  Odd N       line N has an odd number of digits; write two digits for each octet
  LongLine N  line N has more than 327,680 digits; a transport block has at most 1,310,720 bits

Rejected with status 1 and 'linksim: refused: block N' followed by
  Uneven  its code blocks would differ in length (5.2.2); choose a size that TS 38.214 determines";

pub(super) const SCHEDULE: &str =
    "The transmissions, as comma-separated values (- for standard input)";

pub(super) const SCHEDULE_LONG: &str =
    "The transmissions, as comma-separated values (- for standard input)

The header is block,rv,g,qm,nl,erase, optionally followed by ,flip or ,flip,mask or
,flip,mask,process,fresh. At most 4,096 records follow. block counts from 1; rv is 0-3;
g is 1-4194304, a multiple of nl * qm; qm is 1, 2, 4, 6 or 8; nl is 1-4; erase is -, all, places or
pcg:seed:threshold; flip is -, all or places; mask is all or code blocks; process is 0-15; fresh is 0 or 1.

Rejected with status 1 and 'linksim: refused: schedule' followed by
  Read       the file cannot be opened or read; check its path and permissions, and that it is not a folder
  TooLong    the file has more than 16,777,216 octets; check that it is the file that you meant
  Header     record 1 is not a header; begin the file with block,rv,g,qm,nl,erase
  Csv N      record N has a different number of fields than the header; check its commas
  TooMany    there are more than 4,096 transmissions; split them over several runs
  Number N   one of the first five fields of record N is not a number below 2^32; write decimal digits
  Block N    record N names a block that the blocks file does not have; count its lines from 1
  Erase N    erase of record N has none of its forms; write 0-3 7, or pcg:1:1073741824 to erase a quarter of the bits
  Flip N     flip of record N has none of its forms; write places, such as 0-3 7
  Mask N     mask of record N has none of its forms; write all, or numbers of code blocks from 0
  Process N  process of record N is not 0-15; write a number from 0 to 15
  Fresh N    fresh of record N is not 0 or 1, or is 0 although its process has no round of that block; write 1

A rejected transmission does not end a run (status 0). It is a line 'refused' of send and run, which ends with
  Rv             rv is above 3; write 0-3
  Order          qm is not 1, 2, 4, 6 or 8; write the number of bits of a symbol, such as 2 for QPSK
  Layers         nl is not 1-4; write the number of layers
  Total          g is not 1-4194304; write how many bits are sent
  Ragged         g is not a multiple of nl * qm; choose a multiple
  NoneScheduled  mask has no code block of this transport block; count code blocks from 0";
