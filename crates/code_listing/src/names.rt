// The names of instructions, by how many numbers follow each.
ghost use Rattle.std.specs.Prelude.{◌≡◌, ◌≤◌, [], length};
ghost use Rattle.stack_code.specs.Listing.{name_of, operands_of};
ghost use Rattle.code_listing.specs.Shown.{numbers_of};

use crate::operands::Operands;
use stack_code::Instr;

/// The name of an instruction with those operands.
pub(crate) fn name_of(instr: Instr, operands: Operands) -> &'static str
    requires { numbers_of operands ≡ operands_of instr }
    ensures { result.now ≡ name_of instr }
{
    match operands {
        Operands::Nothing => name_alone(instr),
        Operands::Number(_) | Operands::Signed(_) => name_before_one(instr),
        _ => name_before_more(instr),
    }
}

// The name where nothing follows it.
fn name_alone(instr: Instr) -> &'static str
    requires { operands_of instr ≡ [] }
    ensures { result.now ≡ name_of instr }
{
    match instr {
        Instr::Pop => "POP",
        Instr::Dup => "DUP",
        Instr::Swap => "SWAP",
        Instr::Load => "LOAD",
        Instr::Store => "STORE",
        Instr::Max => "MAX",
        Instr::Min => "MIN",
        Instr::Eq => "EQ",
        Instr::Ne => "NE",
        Instr::Lt => "LT",
        Instr::Le => "LE",
        Instr::Gt => "GT",
        Instr::Ge => "GE",
        Instr::And => "AND",
        Instr::Or => "OR",
        Instr::Xor => "XOR",
        Instr::Not => "NOT",
        Instr::Turn => "TURN",
        Instr::Ret => "RET",
        Instr::RetV => "RETV",
        Instr::Reraise => "RERAISE",
        Instr::Leave => "LEAVE",
        Instr::LeaveV => "LEAVEV",
        Instr::Nest => "NEST",
        Instr::Unnest => "UNNEST",
        Instr::Img => "IMG",
        Instr::Bool => "BOOL",
        Instr::Send => "SEND",
        Instr::SendLn => "SENDLN",
        Instr::Get => "GET",
        Instr::End => "END",
        Instr::EndV => "ENDV",
        Instr::Halt => "HALT",
        Instr::Part => "PART",
        Instr::Flip => "FLIP",
        Instr::Differ => "DIFFER",
        Instr::ULt => "ULT",
        Instr::ULe => "ULE",
        Instr::UGt => "UGT",
        Instr::UGe => "UGE",
        Instr::UMax => "UMAX",
        Instr::UMin => "UMIN",
        Instr::UImg => "UIMG",
        Instr::Add(_) => "ADD",
        Instr::Sub(_) => "SUB",
        Instr::Mul(_) => "MUL",
        Instr::Div(_) => "DIV",
        Instr::Mod(_) => "MOD",
        Instr::Rem(_) => "REM",
        Instr::Pow(_) => "POW",
        Instr::Neg(_) => "NEG",
        Instr::Abs(_) => "ABS",
        _ => "",
    }
}

// The name where one number follows it.
fn name_before_one(instr: Instr) -> &'static str
    requires { length (operands_of instr) ≡ 1 }
    ensures { result.now ≡ name_of instr }
{
    match instr {
        Instr::Push(_) => "PUSH",
        Instr::Local(_) => "LOCAL",
        Instr::Global(_) => "GLOBAL",
        Instr::Field(_) => "FIELD",
        Instr::Far(_) => "FAR",
        Instr::Copy(_) => "COPY",
        Instr::Jump(_) => "JUMP",
        Instr::JFalse(_) => "JFALSE",
        Instr::JTrue(_) => "JTRUE",
        Instr::Call(_) => "CALL",
        Instr::Raise(_) => "RAISE",
        Instr::Exit(_) => "EXIT",
        Instr::Fork(_) => "FORK",
        Instr::Words(_) => "WORDS",
        Instr::Wide(_) => "WIDE",
        Instr::Combine(_) => "COMBINE",
        Instr::Repeat(_) => "REPEAT",
        Instr::Again(_) => "AGAIN",
        Instr::LoadL(_) => "LOADL",
        Instr::LoadG(_) => "LOADG",
        Instr::StoreL(_) => "STOREL",
        Instr::StoreG(_) => "STOREG",
        Instr::JfEq(_) => "JFEQ",
        Instr::JfNe(_) => "JFNE",
        Instr::JfLt(_) => "JFLT",
        Instr::JfLe(_) => "JFLE",
        Instr::JfGt(_) => "JFGT",
        Instr::JfGe(_) => "JFGE",
        Instr::BNot(_) => "BNOT",
        Instr::AddI(_, _) => "ADDI",
        Instr::SubI(_, _) => "SUBI",
        Instr::MulI(_, _) => "MULI",
        Instr::ModI(_, _) => "MODI",
        _ => "",
    }
}

// The name where more than one follow it.
fn name_before_more(instr: Instr) -> &'static str
    requires { 2 ≤ length (operands_of instr) }
    ensures { result.now ≡ name_of instr }
{
    match instr {
        Instr::Outer(_, _) => "OUTER",
        Instr::Index(_, _, _) => "INDEX",
        Instr::Fill(_, _) => "FILL",
        Instr::Range(_, _) => "RANGE",
        Instr::CallAt(_, _) => "CALLAT",
        Instr::CallTo(_, _, _) => "CALLTO",
        Instr::LoadO(_, _) => "LOADO",
        Instr::StoreO(_, _) => "STOREO",
        Instr::SetL(_, _, _) => "SETL",
        Instr::IndexL(_, _, _, _) => "INDEXL",
        Instr::Item(_, _, _) => "ITEM",
        Instr::ItemL(_, _, _, _) => "ITEML",
        Instr::IndexG(_, _, _, _, _) => "INDEXG",
        Instr::ItemG(_, _, _, _, _) => "ITEMG",
        Instr::Next(_, _, _) => "NEXT",
        Instr::Prior(_, _, _) => "PRIOR",
        Instr::URange(_, _) => "URANGE",
        Instr::USetL(_, _, _) => "USETL",
        _ => "",
    }
}
