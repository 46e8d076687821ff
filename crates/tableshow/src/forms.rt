// The forms of a page's texts, one behind the other, each named by the place of its first byte and ended by a zero. In the forms of a symbol a
// byte of 128 or more stands for the symbol itself or one of its hexadecimal digits; in those of a line it stands for a number, a symbol or a
// range (specs/Forms). A place is a number and no member of an enum, since the proofs of the texts go by it: that it stands for one text is shown for each.
ghost use Rattle.std.specs.Prelude.{◌≡◌, get_or};
ghost use Rattle.tableshow.specs.Forms.{forms};

pub(crate) const NOTHING: usize = 0;

pub(crate) const SPACE: usize = 1;

pub(crate) const TAB: usize = 7;

pub(crate) const NEWLINE: usize = 10;

pub(crate) const RETURN: usize = 13;

pub(crate) const QUOTED: usize = 16;

pub(crate) const HEXED: usize = 20;

pub(crate) const WIDE_4: usize = 25;

pub(crate) const WIDE_5: usize = 32;

pub(crate) const WIDE_6: usize = 40;

pub(crate) const WIDE_8: usize = 49;

pub(crate) const DOTS: usize = 60;

pub(crate) const TABLE: usize = 63;

pub(crate) const NOT_COMPILED: usize = 98;

pub(crate) const STARTS_AT: usize = 122;

pub(crate) const STATE: usize = 148;

pub(crate) const NO_ACCEPT: usize = 157;

pub(crate) const ACCEPT: usize = 170;

pub(crate) const ACCEPT_ACTIONS: usize = 190;

pub(crate) const ACCEPT_END: usize = 221;

pub(crate) const ACCEPT_END_ACTIONS: usize = 259;

pub(crate) const LOOPS_ALWAYS: usize = 308;

pub(crate) const UNTIL_1: usize = 336;

pub(crate) const UNTIL_2: usize = 356;

pub(crate) const UNTIL_3: usize = 381;

pub(crate) const ON_1: usize = 411;

pub(crate) const ON_2: usize = 428;

pub(crate) const ON_3: usize = 448;

pub(crate) const ON_4: usize = 471;

pub(crate) const ASCII: usize = 497;

pub(crate) const WIDE: usize = 507;

pub(crate) const WIDE_AS: usize = 517;

pub(crate) const ESCAPES: usize = 540;

pub(crate) const SAME_LINE: usize = 550;

pub(crate) const NEXT_LINE: usize = 554;

pub(crate) const TO: usize = 568;

pub(crate) const TO_ESCAPE: usize = 574;

pub(crate) const TO_DEAD: usize = 585;

pub(crate) const TO_CONTINUATION: usize = 594;

pub(crate) const NO_ITEMS: usize = 613;

pub(crate) const END_LINE: usize = 621;

pub(crate) const END_TO: usize = 623;

pub(crate) const END_ESCAPE: usize = 640;

pub(crate) const END_CONTINUATION: usize = 662;

pub(crate) const REFUSED: usize = 692;

pub(crate) const SHORT: usize = 708;

pub(crate) const TAG: usize = 757;

pub(crate) const FIELD: usize = 806;

pub(crate) const LIMIT: usize = 860;

pub(crate) const LEFT: usize = 902;

pub(crate) const OTHER: usize = 948;

pub(crate) const RULE_1: usize = 973;

pub(crate) const RULE_2: usize = 1017;

pub(crate) const RULE_3: usize = 1088;

pub(crate) const RULE_4: usize = 1135;

pub(crate) const RULE_5: usize = 1182;

pub(crate) const RULE_6: usize = 1236;

pub(crate) const RULE_7: usize = 1308;

pub(crate) const RULE_8: usize = 1362;

pub(crate) const RULE_9: usize = 1445;

// A byte of the forms.
pub(crate) fn form_byte(at: usize) -> u8
    ensures { result ≡ get_or forms at 0 }
{
    let forms = b"\
        \0\
        space\0\
        \\t\0\
        \\n\0\
        \\r\0\
        '\x80'\0\
        0x\x82\x81\0\
        U+\x84\x83\x82\x81\0\
        U+\x85\x84\x83\x82\x81\0\
        U+\x86\x85\x84\x83\x82\x81\0\
        U+\x88\x87\x86\x85\x84\x83\x82\x81\0\
        ..\0\
        table: modes \x80, states \x81, words \x82\n\0\
        mode \x80 is not compiled\n\0\
        mode \x80 starts at state \x81\n\0\
        \nstate \x80\0\
        , no accept\n\0\
        : accept \x80, rule \x81\n\0\
        : accept \x80, rule \x81, actions \x82\n\0\
        : accept \x80, rule \x81, the end consumed\n\0\
        : accept \x80, rule \x81, the end consumed, actions \x82\n\0\
        \x20 loops    on every symbol\n\0\
        \x20 loops    until \x83\n\0\
        \x20 loops    until \x83 or \x84\n\0\
        \x20 loops    until \x83 or \x84 or \x85\n\0\
        \x20 loops    on \x87\n\0\
        \x20 loops    on \x87, \x88\n\0\
        \x20 loops    on \x87, \x88, \x89\n\0\
        \x20 loops    on \x87, \x88, \x89, \x8a\n\0\
        \x20 ascii  \0\
        \x20 wide   \0\
        \x20 wide     as state \x80\n\0\
        \x20 escapes\0\
        \x20 \x86\0\
        \n           \x86\0\
        \x20-> \x80\0\
        \x20-> escape\0\
        \x20-> dead\0\
        \x20-> continuation \x80\0\
        \x20 none\n\0\
        \n\0\
        \x20 at end   -> \x80\n\0\
        \x20 at end   -> escape\n\0\
        \x20 at end   -> continuation \x80\n\0\
        refused: \x80 at \x81\0\
        : SHORT, the words end inside a field or record\n\0\
        : TAG, the first word is not the tag of a table\n\0\
        : FIELD, the word here is one that its field forbids\n\0\
        : LIMIT, there are more than 8,192 words\n\0\
        : LEFT, words remain behind the last section\n\0\
        : no answer of decoding\n\0\
        : INDEX, a mode starts at what is no state\n\0\
        : INDEX, a state names a row, a target or an accept that is not there\n\0\
        : INDEX, there are not as many runs as states\n\0\
        : INDEX, a run is not that of its state's row\n\0\
        : INDEX, an ascii row has a target that is not there\n\0\
        : INDEX, a wide row is out of order, or has a target that is not there\n\0\
        : INDEX, there are not as many escape rows as states\n\0\
        : INDEX, an escape row is out of order, or names a continuation that is not there\n\0\
        : INDEX, a context or a config refers to a context that it must not\n\0";
    if at < forms.len() {
        return forms[at];
    }
    0
}
