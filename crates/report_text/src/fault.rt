ghost use Rattle.std.specs.Prelude.{◌≡◌};
ghost use Rattle.report_text.specs.Faults.{lexer_fault, parser_fault, typing_fault, certificate_fault, checker_fault};
ghost use Rattle.report_text.specs.Faults.{assembler_fault, generator_fault};
ghost use Rattle.memory.specs.Refused.{the_refusal};
ghost use Rattle.report_text.specs.declared.fault.Fault.TheVariants.{Memory};

use certificate::ReadFault;
use checker_expressions::CheckFault;
use code_generator::fault::GenFault;
use lexer::fault::LexFault;
use memory::Refused;
use pcode_assembler::AsmFault;
use std::alloc::AllocError;
use thiserror::Error;
use token_cursor::fault::ParseFault;
use typed_tree::TypeFault;

/// Why a source was not compiled, or a code not assembled: want of memory, or the fault of the crate that refused it.
#[derive(Clone, Copy, Debug, Error)]
pub enum Fault {
    #[error("no memory")]
    Memory(Refused),
    #[error("{0}")]
    Lex(LexFault),
    #[error("{0}")]
    Parse(ParseFault),
    #[error("{0}")]
    Typing(TypeFault),
    #[error("certificate:{0}")]
    Certificate(ReadFault),
    #[error("{0}")]
    Check(CheckFault),
    #[error("{0}")]
    Generate(GenFault),
    #[error("{0}")]
    Code(AsmFault),
}

impl From<AllocError> for Fault {
    ghost from_gives = { λ _ e. e ≡ Memory the_refusal };

    fn from(error: AllocError) -> Fault {
        Fault::Memory(error.into())
    }
}

impl From<LexFault> for Fault {
    ghost from_gives = { λ fault e. e ≡ lexer_fault fault };

    fn from(fault: LexFault) -> Fault {
        match fault {
            LexFault::Memory(refused) => Fault::Memory(refused),
            _ => Fault::Lex(fault),
        }
    }
}

impl From<ParseFault> for Fault {
    ghost from_gives = { λ fault e. e ≡ parser_fault fault };

    fn from(fault: ParseFault) -> Fault {
        match fault {
            ParseFault::Memory(refused) => Fault::Memory(refused),
            _ => Fault::Parse(fault),
        }
    }
}

impl From<TypeFault> for Fault {
    ghost from_gives = { λ fault e. e ≡ typing_fault fault };

    fn from(fault: TypeFault) -> Fault {
        match fault {
            TypeFault::Memory(refused) => Fault::Memory(refused),
            _ => Fault::Typing(fault),
        }
    }
}

impl From<ReadFault> for Fault {
    ghost from_gives = { λ fault e. e ≡ certificate_fault fault };

    fn from(fault: ReadFault) -> Fault {
        match fault {
            ReadFault::Memory(refused) => Fault::Memory(refused),
            _ => Fault::Certificate(fault),
        }
    }
}

impl From<CheckFault> for Fault {
    ghost from_gives = { λ fault e. e ≡ checker_fault fault };

    fn from(fault: CheckFault) -> Fault {
        match fault {
            CheckFault::Memory(refused) => Fault::Memory(refused),
            _ => Fault::Check(fault),
        }
    }
}

impl From<GenFault> for Fault {
    ghost from_gives = { λ fault e. e ≡ generator_fault fault };

    fn from(fault: GenFault) -> Fault {
        match fault {
            GenFault::Memory(refused) => Fault::Memory(refused),
            _ => Fault::Generate(fault),
        }
    }
}

impl From<AsmFault> for Fault {
    ghost from_gives = { λ fault e. e ≡ assembler_fault fault };

    fn from(fault: AsmFault) -> Fault {
        match fault {
            AsmFault::Memory(refused) => Fault::Memory(refused),
            _ => Fault::Code(fault),
        }
    }
}
