use crate::SetMembers;

/// An instruction of the stack machine. `level` counts the static links to follow (0 to 15); `offset` counts
/// cells (0 to 16,777,215), so do `length` and `size` (0 to 65,536), and `variables` and `evaluation` (0 to
/// 16,777,216); `target` is the index of an instruction, `site` and `point` are ids of the code's tables. Where
/// a name doesn't say what an instruction does, its mnemonic's line does.
#[derive(Clone, Copy)]
pub enum Instr {
    /// `ldc c`: push a number.
    LoadConstant { value: i32 },
    /// `lds h`: push a set, a bit for each member: m is bit m of `members`.
    LoadSet { members: SetMembers },
    /// `lda d o`: push base(d) + o.
    LoadAddress { level: u8, offset: u32 },
    /// `lod d o`: push the cell at base(d) + o.
    Load { level: u8, offset: u32 },
    /// `str d o`: pop into the cell at base(d) + o.
    Store { level: u8, offset: u32 },
    /// `ind o`: pop an address, push the cell at it + o.
    LoadIndirect { offset: u32 },
    /// `sto`: pop a value and an address, store.
    StoreIndirect,
    /// `ldm n`: pop an address, push n cells.
    LoadMany { length: u32 },
    /// `stm n`: pop n cells and an address, store.
    StoreMany { length: u32 },
    /// `inc o`: add o to the top.
    Increase { offset: u32 },
    /// `ixa lo size`: pop an index and an address, push address + (index - lo) * size.
    IndexAddress { low: i32, size: u32 },
    /// `adi`
    Add,
    /// `sbi`
    Subtract,
    /// `mpi`
    Multiply,
    /// `dvi`: cuts toward zero.
    Divide,
    /// `mod`: never negative.
    Modulo,
    /// `ngi`
    Negate,
    /// `abi`
    Absolute,
    /// `sqi`
    Square,
    /// `odd`
    Odd,
    /// `not`: 0 is false, and results are 0 or 1.
    Not,
    /// `and`
    And,
    /// `ior`
    Or,
    /// `equ`, and so on: of two numbers.
    Equal,
    NotEqual,
    Less,
    LessOrEqual,
    Greater,
    GreaterOrEqual,
    /// `cmp n`: pop two rows of n numbers, push -1, 0 or 1.
    Compare { length: u32 },
    /// `sgs`: the set of one member.
    Singleton,
    /// `srg`: the set of a..b.
    SetRange,
    /// `uni`
    Union,
    /// `int`
    Intersection,
    /// `dif`
    Difference,
    /// `inn`: pop a set and a number, push whether it is a member.
    IsMember,
    /// `seq`, `sne`, `sle`, `sge`: of two sets: equal, not equal, inside, around.
    SetEqual,
    SetNotEqual,
    SetInside,
    SetAround,
    /// `ujp N`
    Jump { target: u32 },
    /// `fjp N`: pop, jump on 0.
    JumpIfFalse { target: u32 },
    /// `mst d`: push the links of a new frame: base(d), fp, undefined, limit.
    MarkStack { level: u8 },
    /// `cup n N`: the frame begins at the links below the `length` cells of the parameters; set its return, jump.
    CallProcedure { length: u32, target: u32 },
    /// `ent l e`: l undefined cells, and the limit e further; the store may be full.
    Enter { variables: u32, evaluation: u32 },
    /// `ret r`: leave the frame for its caller's, and take `results` cells along (0 or 1).
    Return { results: u8 },
    /// `rdi p`
    ReadInteger { point: u32 },
    /// `rdc p`
    ReadChar { point: u32 },
    /// `rln p`
    ReadLine { point: u32 },
    /// `eln p`
    EndOfLine { point: u32 },
    /// `eof`
    EndOfFile,
    /// `chn p lo hi`: the input is at fault where the top is outside.
    CheckInput { point: u32, low: i32, high: i32 },
    /// `wri`: pop a width and an integer, write.
    WriteInteger,
    /// `wrc`
    WriteChar,
    /// `wrb`
    WriteBoolean,
    /// `wrs n`: pop a width and n characters, write.
    WriteString { length: u32 },
    /// `wln`
    WriteLine,
    /// `stp`: the run is finished.
    Stop,
    /// `chk s lo hi`: an error where the number on top is outside.
    CheckRange { site: u32, low: i32, high: i32 },
    /// `ckz s`: an error where the top is zero.
    CheckZero { site: u32 },
    /// `ckd s n`: an error where one of the n topmost cells is undefined.
    CheckDefined { site: u32, length: u32 },
    /// `cka s`: an error where the sum of the top two is outside integer.
    CheckSum { site: u32 },
    /// `cks s`: the same of the difference.
    CheckDifference { site: u32 },
    /// `ckm s`: the same of the product.
    CheckProduct { site: u32 },
    /// `ckq s`: the same of the square of the top.
    CheckSquare { site: u32 },
    /// `ckr s`: an error where a <= b and not both are in 0..127.
    CheckMembers { site: u32 },
    /// `ckb s lo hi`: an error where a member of the set on top is outside.
    CheckSet { site: u32, low: i32, high: i32 },
    /// `err s`: always an error.
    Fail { site: u32 },
}
