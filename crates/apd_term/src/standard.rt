//! The ids of the standard names, in the order of their texts.

use crate::term::NameId;

// Brackets and punctuation.
pub const NIL: NameId = NameId(0);

pub const CELL: NameId = NameId(1);

pub const CURLY: NameId = NameId(2);

pub const COMMA: NameId = NameId(3);

pub const BAR: NameId = NameId(4);

pub const NECK: NameId = NameId(5);

pub const QUERY: NameId = NameId(6);

pub const GRAMMAR_ARROW: NameId = NameId(7);

// Built-in goals.
pub const TRUE: NameId = NameId(8);

pub const FAIL: NameId = NameId(9);

pub const UNIFY: NameId = NameId(10);

pub const IS: NameId = NameId(11);

pub const EQUAL: NameId = NameId(12);

pub const DIFFERENT: NameId = NameId(13);

pub const LESS: NameId = NameId(14);

pub const LESS_EQUAL: NameId = NameId(15);

pub const GREATER: NameId = NameId(16);

pub const GREATER_EQUAL: NameId = NameId(17);

// Arithmetic operations.
pub const PLUS: NameId = NameId(18);

pub const MINUS: NameId = NameId(19);

pub const TIMES: NameId = NameId(20);

pub const QUOTIENT: NameId = NameId(21);

pub const MOD: NameId = NameId(22);

pub const REM: NameId = NameId(23);

pub const MIN: NameId = NameId(24);

pub const MAX: NameId = NameId(25);

pub const ABS: NameId = NameId(26);

// Operators that are none of these.
pub const DYNAMIC: NameId = NameId(27);

pub const DISCONTIGUOUS: NameId = NameId(28);

pub const MULTIFILE: NameId = NameId(29);

pub const INITIALIZATION: NameId = NameId(30);

pub const SEMICOLON: NameId = NameId(31);

pub const ARROW: NameId = NameId(32);

pub const NOT_PROVABLE: NameId = NameId(33);

pub const NOT_UNIFIABLE: NameId = NameId(34);

pub const IDENTICAL: NameId = NameId(35);

pub const NOT_IDENTICAL: NameId = NameId(36);

pub const BEFORE: NameId = NameId(37);

pub const BEFORE_EQUAL: NameId = NameId(38);

pub const AFTER: NameId = NameId(39);

pub const AFTER_EQUAL: NameId = NameId(40);

pub const UNIV: NameId = NameId(41);

pub const BIT_AND: NameId = NameId(42);

pub const BIT_OR: NameId = NameId(43);

pub const DIVIDE: NameId = NameId(44);

pub const SHIFT_LEFT: NameId = NameId(45);

pub const SHIFT_RIGHT: NameId = NameId(46);

pub const POWER: NameId = NameId(47);

pub const CARET: NameId = NameId(48);

pub const BIT_NOT: NameId = NameId(49);

// Control.
pub const CUT: NameId = NameId(50);

pub const NOT: NameId = NameId(51);

// Words of commands and replies.
pub const WRONG: NameId = NameId(52);

pub const MISSING: NameId = NameId(53);

pub const LOOP: NameId = NameId(54);

pub const TRACE: NameId = NameId(55);

pub const OFF: NameId = NameId(56);

pub const ALL: NameId = NameId(57);

pub const LEAP: NameId = NameId(58);

pub const SKIP: NameId = NameId(59);

pub const KNOWN: NameId = NameId(60);

pub const QUIT: NameId = NameId(61);

pub const STOP: NameId = NameId(62);

pub const YES: NameId = NameId(63);

pub const NO: NameId = NameId(64);

pub const UNKNOWN: NameId = NameId(65);

// Words of the oracle file.
pub const FORM: NameId = NameId(66);

pub const COVERS: NameId = NameId(67);

pub const BELOW: NameId = NameId(68);

pub const TRUSTED: NameId = NameId(69);

// Kinds of operators, the postfix kinds included.
pub const OP: NameId = NameId(70);

pub const XFX: NameId = NameId(71);

pub const XFY: NameId = NameId(72);

pub const YFX: NameId = NameId(73);

pub const FX: NameId = NameId(74);

pub const FY: NameId = NameId(75);

pub const XF: NameId = NameId(76);

pub const YF: NameId = NameId(77);

// Comparison and tests of terms.
pub const COMPARE: NameId = NameId(78);

pub const VAR: NameId = NameId(79);

pub const NONVAR: NameId = NameId(80);

pub const ATOM: NameId = NameId(81);

pub const NUMBER: NameId = NameId(82);

pub const INTEGER: NameId = NameId(83);

pub const FLOAT: NameId = NameId(84);

pub const ATOMIC: NameId = NameId(85);

pub const COMPOUND: NameId = NameId(86);

pub const CALLABLE: NameId = NameId(87);

pub const IS_LIST: NameId = NameId(88);

pub const GROUND: NameId = NameId(89);

// Taking terms apart.
pub const FUNCTOR: NameId = NameId(90);

pub const ARG: NameId = NameId(91);

pub const COPY_TERM: NameId = NameId(92);

pub const ATOM_CODES: NameId = NameId(93);

pub const ATOM_CHARS: NameId = NameId(94);

pub const CHAR_CODE: NameId = NameId(95);

pub const ATOM_LENGTH: NameId = NameId(96);

pub const ATOM_CONCAT: NameId = NameId(97);

pub const SUB_ATOM: NameId = NameId(98);

pub const NUMBER_CODES: NameId = NameId(99);

pub const NUMBER_CHARS: NameId = NameId(100);

pub const ATOM_NUMBER: NameId = NameId(101);

// Calling.
pub const CALL: NameId = NameId(102);

pub const ONCE: NameId = NameId(103);

pub const IGNORE: NameId = NameId(104);

pub const FORALL: NameId = NameId(105);

pub const FINDALL: NameId = NameId(106);

pub const BAGOF: NameId = NameId(107);

pub const SETOF: NameId = NameId(108);

pub const PHRASE: NameId = NameId(109);

// Changing the program.
pub const ASSERT: NameId = NameId(110);

pub const ASSERTA: NameId = NameId(111);

pub const ASSERTZ: NameId = NameId(112);

pub const RETRACT: NameId = NameId(113);

pub const RETRACTALL: NameId = NameId(114);

pub const ABOLISH: NameId = NameId(115);

pub const CONSULT: NameId = NameId(116);

// Exceptions and ending.
pub const CATCH: NameId = NameId(117);

pub const THROW: NameId = NameId(118);

pub const HALT: NameId = NameId(119);

// Input and output.
pub const WRITE: NameId = NameId(120);

pub const WRITELN: NameId = NameId(121);

pub const WRITEQ: NameId = NameId(122);

pub const PRINT: NameId = NameId(123);

pub const NL: NameId = NameId(124);

pub const TAB: NameId = NameId(125);

pub const PUT_CHAR: NameId = NameId(126);

pub const GET_CHAR: NameId = NameId(127);

pub const READ: NameId = NameId(128);

pub const FORMAT: NameId = NameId(129);

pub const OPEN: NameId = NameId(130);

pub const CLOSE: NameId = NameId(131);
