//! What each case asks for.

use crate::run::push_run;
use crate::sure::push_sure_run;
use board_base::{List, Stop};
use case_text::{Answer, is_given};
use json_text::{Member, Text};
use std::alloc::Global;

/// Runs of the top call. `chunk` is how many bytes the ends of a run give and take at once if its
/// case doesn't say.
#[derive(Drop)]
pub(crate) struct Runs {
    pub(crate) chunk: u64,
}

impl Answer for Runs {
    fn push_answer(
        &self,
        alloc: Global,
        line: &mut Vec<u8>,
        case: &List<Member>,
    ) -> Result<(), Stop<Text>> {
        if !is_given(case, "words") {
            Err(Stop::Fault(Text::fixed("member words")))
        } else if is_given(case, "sure") {
            push_sure_run(alloc, line, case, self.chunk)
        } else {
            push_run(alloc, line, case, self.chunk)
        }
    }
}
