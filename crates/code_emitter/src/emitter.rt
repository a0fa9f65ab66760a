ghost use Rattle.std.specs.Prelude.{◌≡◌, ◌≤◌, [], ◌∷◌, IfOk, MatchResult, length};
ghost use Rattle.pcode_assembler.specs.declared.instr.Instr.TheVariants.{Jump};
ghost use Rattle.memory.specs.Refused.{the_refusal};
ghost use Rattle.code_emitter.specs.declared.emitter.Loss.TheVariants.{Memory};
ghost use Rattle.code_emitter.specs.Emitted.{is_large, place_of, with_each, with_instr, Gets, Grows, IsKept};

use memory::Refused;
use pcode_assembler::Instr;
use std::alloc::{AllocError, AllocFailed, Global};
use std::marker::Model;

/// The most instructions that a code may have.
const MOST: usize = 1000000;

/// Why there is no code.
#[derive(Clone, Copy)]
pub enum Loss {
    Memory(Refused),
    TooLarge,
}

impl From<AllocError> for Loss {
    ghost from_gives = { λ _ loss. loss ≡ Memory the_refusal };

    fn from(error: AllocError) -> Loss {
        Loss::Memory(error.into())
    }
}

impl<T: Drop> From<AllocFailed<T>> for Loss {
    ghost from_gives = { λ _ loss. loss ≡ Memory the_refusal };

    fn from(error: AllocFailed<T>) -> Loss {
        Loss::Memory(error.into())
    }
}

/// The instructions of a code that grows. Once it is lost it stays so, and gets nothing more.
#[derive(Drop)]
pub struct Emitter {
    alloc: Global,
    code: Vec<Instr>,
    lost: Option<Loss>,
}

impl Model for Emitter {
    ghost use Rattle.std.specs.Prelude.{◌≤◌, length};
    ghost use Rattle.code_emitter.specs.Emitted.{seen, Seen};

    ghost Value = { Seen };

    ghost view = { λ e. seen e.code.items e.lost };

    ghost invariant = { λ e. length e.code.items ≤ 1000000 };
}

impl Emitter {
    pub fn new(alloc: Global) -> Emitter
        ensures { result ≡ Ok [] }
    {
        Emitter {
            alloc,
            code: Vec::new(alloc),
            lost: None,
        }
    }

    /// The allocator of its instructions.
    pub fn alloc(&self) -> Global {
        self.alloc
    }

    /// The place of the next instruction.
    pub fn place(&self) -> u32
        ensures place { result ≡ place_of self.now }
        ensures small { result ≤ 1000000 }
    {
        match self.lost {
            None => self.code.len() as u32,
            Some(_loss) => 0,
        }
    }

    /// One more instruction.
    pub fn put(&mut self, instr: Instr)
        ensures { Gets self.old self.new (instr ∷ []) }
    {
        self.put_all(&[instr]);
    }

    /// Some more.
    pub fn put_all(&mut self, instrs: &[Instr])
        ensures { Gets self.old self.new instrs.now }
    {
        if self.lost.is_some() {
            return;
        }
        if MOST - self.code.len() < instrs.len() {
            self.lost = Some(Loss::TooLarge);
            return;
        }
        if let Err(error) = self.code.extend_from_slice(instrs) {
            self.lost = Some(error.into());
        }
    }

    /// Keeps room for an instruction that is known later, and answers its place.
    pub fn hole(&mut self) -> u32
        ensures emits { Gets self.old self.new (Jump 0 ∷ []) }
        ensures place { result ≡ place_of self.old }
        ensures small { result ≤ 1000000 }
    {
        let place = self.place();
        self.put(Instr::Jump { target: 0 });
        place
    }

    /// Sets the instruction at a place.
    pub fn set(&mut self, place: u32, instr: Instr)
        ensures { self.new ≡ with_instr place instr self.old }
    {
        let place = place as usize;
        if place < self.code.len() {
            self.code[place] = instr;
        }
    }

    /// Sets jumps to a target at some places.
    pub fn set_jumps(&mut self, places: &[u32], target: u32)
        ensures { self.new ≡ with_each places.now (Jump target) self.old }
    {
        for place in places {
            self.set(*place, Instr::Jump { target });
        }
    }

    /// Loses it, unless it is lost already.
    pub fn lose(&mut self, loss: Loss)
        ensures grows { Grows (is_large loss) self.old self.new [] }
        ensures lost { IsKept self.new → ⊥ }
    {
        if self.lost.is_none() {
            self.lost = Some(loss);
        }
    }

    /// Its instructions.
    ///
    /// # Errors
    /// Why it was lost.
    pub fn into_code(self) -> Result<Vec<Instr>, Loss>
        ensures seen { MatchResult result (λ code. self ≡ Ok code.items) (λ loss. self ≡ Err loss) }
        ensures small { IfOk result (λ code. length code.items ≤ 1000000) }
    {
        match self.lost {
            None => Ok(self.code),
            Some(loss) => Err(loss),
        }
    }
}
