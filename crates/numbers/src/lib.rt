// The answers of the library's calls as structs of numbers, for the C boundary (include/vadivuzhen.h). In each `refusal` is document 01's number, or 0
// where the call finished; a field that the answer does not use is 0.
#![tactic(auto)]

ghost use Rattle.std.specs.Prelude.{◌≡◌};
ghost use Rattle.refusal.specs.Number.{number_of};
ghost use Rattle.reader.specs.Answers.{answer_of as Reader·answerOf};
ghost use Rattle.writer.specs.Answers.{answer_of as Writer·answerOf};
ghost use Rattle.joining.specs.Answers.{answer_of as Joiner·answerOf};
ghost use Rattle.weighing.specs.Answers.{answer_of as Weighing·answerOf};
ghost use Rattle.live.specs.Answers.{answer_of as Live·answerOf};
ghost use Rattle.planner.specs.Answers.{answer_of as Planner·answerOf};
ghost use Rattle.printout.specs.Answers.{answer_of as Printout·answerOf};
ghost use Rattle.numbers.specs.Numbers.{read_numbers, write_numbers, join_numbers, build_numbers, live_numbers, plan_numbers, print_numbers};

use planner::Planned;
use reader::Head;
use refusal::{Refusal, Refused};

// The sheet's version and N, or the refusal's place.
#[repr(C)]
#[derive(Clone, Copy)]
pub struct ReadAnswer {
    pub refusal: u32,
    pub version: u16,
    pub place: usize,
    pub pairs: usize,
}

// The sheet's length.
#[repr(C)]
#[derive(Clone, Copy)]
pub struct WriteAnswer {
    pub refusal: u32,
    pub length: usize,
}

// The joined sheet's length, or the refusal's place.
#[repr(C)]
#[derive(Clone, Copy)]
pub struct JoinAnswer {
    pub refusal: u32,
    pub place: usize,
    pub length: usize,
}

#[repr(C)]
#[derive(Clone, Copy)]
pub struct BuildAnswer {
    pub refusal: u32,
}

// Of starting, registering and withdrawing.
#[repr(C)]
#[derive(Clone, Copy)]
pub struct LiveAnswer {
    pub refusal: u32,
}

// The plan's number of cycles, weight and tally.
#[repr(C)]
#[derive(Clone, Copy)]
pub struct PlanAnswer {
    pub refusal: u32,
    pub cycles: usize,
    pub weight: u64,
    pub comparisons: u64,
    pub products: u64,
    pub rounds: u64,
}

// The text's length.
#[repr(C)]
#[derive(Clone, Copy)]
pub struct PrintAnswer {
    pub refusal: u32,
    pub length: usize,
}

// Document 01's number of a refusal, in the answers' width.
fn number_of(why: Refusal) -> u32
    ensures { result ≡ number_of why }
{
    why.number() as u32
}

impl From<Result<Head, Refused>> for ReadAnswer {
    ghost from_gives = { λ answer r. r ≡ read_numbers (Reader·answerOf answer) };

    #[tactic(auto, unfolding(crate::specs::Numbers::read_numbers, reader::specs::Answers::answer_of))]
    fn from(answer: Result<Head, Refused>) -> ReadAnswer {
        match answer {
            Err(fault) => ReadAnswer {
                refusal: number_of(fault.why),
                version: 0,
                place: fault.place,
                pairs: 0,
            },
            Ok(head) => ReadAnswer {
                refusal: 0,
                version: head.version,
                place: 0,
                pairs: head.pairs,
            },
        }
    }
}

impl From<Result<usize, Refusal>> for WriteAnswer {
    ghost from_gives = { λ answer r. r ≡ write_numbers (Writer·answerOf answer) };

    #[tactic(auto, unfolding(crate::specs::Numbers::write_numbers, writer::specs::Answers::answer_of))]
    fn from(answer: Result<usize, Refusal>) -> WriteAnswer {
        match answer {
            Err(why) => WriteAnswer {
                refusal: number_of(why),
                length: 0,
            },
            Ok(length) => WriteAnswer { refusal: 0, length },
        }
    }
}

impl From<Result<usize, Refused>> for JoinAnswer {
    ghost from_gives = { λ answer r. r ≡ join_numbers (Joiner·answerOf answer) };

    #[tactic(auto, unfolding(crate::specs::Numbers::join_numbers, joining::specs::Answers::answer_of))]
    fn from(answer: Result<usize, Refused>) -> JoinAnswer {
        match answer {
            Err(refused) => JoinAnswer {
                refusal: number_of(refused.why),
                place: refused.place,
                length: 0,
            },
            Ok(length) => JoinAnswer {
                refusal: 0,
                place: 0,
                length,
            },
        }
    }
}

impl From<Result<(), Refusal>> for BuildAnswer {
    ghost from_gives = { λ answer r. r ≡ build_numbers (Weighing·answerOf answer) };

    #[tactic(auto, unfolding(crate::specs::Numbers::build_numbers, weighing::specs::Answers::answer_of))]
    fn from(answer: Result<(), Refusal>) -> BuildAnswer {
        match answer {
            Err(why) => BuildAnswer {
                refusal: number_of(why),
            },
            Ok(()) => BuildAnswer { refusal: 0 },
        }
    }
}

impl From<Result<(), Refusal>> for LiveAnswer {
    ghost from_gives = { λ answer r. r ≡ live_numbers (Live·answerOf answer) };

    #[tactic(auto, unfolding(crate::specs::Numbers::live_numbers, live::specs::Answers::answer_of))]
    fn from(answer: Result<(), Refusal>) -> LiveAnswer {
        match answer {
            Err(why) => LiveAnswer {
                refusal: number_of(why),
            },
            Ok(()) => LiveAnswer { refusal: 0 },
        }
    }
}

impl From<Result<Planned, Refusal>> for PlanAnswer {
    ghost from_gives = { λ answer r. r ≡ plan_numbers (Planner·answerOf answer) };

    #[tactic(auto, unfolding(crate::specs::Numbers::plan_numbers, planner::specs::Answers::answer_of))]
    fn from(answer: Result<Planned, Refusal>) -> PlanAnswer {
        match answer {
            Err(why) => PlanAnswer {
                refusal: number_of(why),
                cycles: 0,
                weight: 0,
                comparisons: 0,
                products: 0,
                rounds: 0,
            },
            Ok(plan) => PlanAnswer {
                refusal: 0,
                cycles: plan.cycles,
                weight: plan.weight,
                comparisons: plan.tally.comparisons,
                products: plan.tally.products,
                rounds: plan.tally.rounds,
            },
        }
    }
}

impl From<Result<usize, Refusal>> for PrintAnswer {
    ghost from_gives = { λ answer r. r ≡ print_numbers (Printout·answerOf answer) };

    #[tactic(auto, unfolding(crate::specs::Numbers::print_numbers, printout::specs::Answers::answer_of))]
    fn from(answer: Result<usize, Refusal>) -> PrintAnswer {
        match answer {
            Err(why) => PrintAnswer {
                refusal: number_of(why),
                length: 0,
            },
            Ok(length) => PrintAnswer { refusal: 0, length },
        }
    }
}
