// What --help prints.
pub const TEXT: &str = "allot: checks a pricing formula and names the rule it breaks and the byte

usage: allot          a formula from standard input, at most 4,096 bytes of it
       allot FILE     a formula from a file, likewise
       allot --help   this text

A formula in order prints three lines, its records, values and moves, as

    records 5
    values 3
    moves 1

and ends with status 0. Any other prints one line, its refusal and the place, as

    refused 6 at 12

and ends with status 1, as a file that cannot be read does. Standard error then says
in words which rule was broken, where, what stands there and what would have been right.

 3  the input ends early                       at the input's length
 4  a header field is out of range             at the field's first byte
 5  a padding bit of the class bits is set     at the padded byte
 6  kind unknown, or a map not its own         at the record's first byte
 7  an operand that is not in use              at the field's first byte
 8  a move between classes                     at the source field's first byte
 9  a target not below the number of records   at the field's first byte
10  bytes remain behind the records            at the first of them
11  the last record is no jump and no end      at the record's first byte
12  a value may be read before it is set       at the lowest such value

The rules are checked in this order, a record's fields one by one, and the first
one that is broken is told. Values are numbered from 32.
";
