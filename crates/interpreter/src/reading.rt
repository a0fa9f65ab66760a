ghost use Rattle.interpreter.specs.Pending.{RunDoes, asking, line_passing, resumed};
ghost use Rattle.interpreter.specs.Size.{Adds, Lightens};

use crate::interpreter::{Progress, Run};
use interpreter_state::{Work, put};
use meaning::{Ending, Ordinal, Value};
use text_input::InputFault;
use typed_tree::{InputTest, ReadVariable};

// The steps that read or ask the input.
impl<'t> Run<'t, '_> {
    pub(crate) fn variables(&mut self, variables: &'t [ReadVariable], line: Option<u32>) -> Progress
        ensures fewer { Lightens (Work.Variables variables.entry line) self.old result self.new }
        ensures does { RunDoes (λ env. resumed env (Work.Variables variables.entry line)) self.old result self.new }
    {
        match variables.split_first() {
            Some((first, rest)) => {
                let others = Work::Variables {
                    variables: rest,
                    line,
                };
                put(&mut self.pending, others)?;
                self.access(&first.access, &first.indexes, Work::Read(first))
            }
            None => self.line(line),
        }
    }

    // Reads a variable whose place is topmost; what is read has to be a value of its type.
    pub(crate) fn read(&mut self, variable: &'t ReadVariable) -> Progress
        ensures fewer { Lightens (Work.Read variable.entry) self.old result self.new }
        ensures does { RunDoes (λ env. resumed env (Work.Read variable.entry)) self.old result self.new }
    {
        let place = self.popped_place();
        let point = variable.point;
        match self.input.read(variable.reads) {
            Ok((number, rest)) => {
                self.input = rest;
                let value = Value::Number(Ordinal::new(number));
                let fault = InputFault::OutsideType;
                self.keep_within(place, value, variable.range, Ending::Input { point, fault })
            }
            Err(fault) => Ok(Some(Ending::Input { point, fault })),
        }
    }

    // Passes the next line end behind a readln.
    fn line(&mut self, line: Option<u32>) -> Progress
        ensures size { Adds 0 self.old result self.new }
        ensures does { RunDoes (λ env. line_passing line) self.old result self.new }
    {
        let Some(point) = line else {
            return Ok(None);
        };
        match self.input.behind_line() {
            Ok(rest) => {
                self.input = rest;
                Ok(None)
            }
            Err(fault) => Ok(Some(Ending::Input { point, fault })),
        }
    }

    pub(crate) fn asked(&mut self, asks: InputTest) -> Progress
        ensures size { Adds 0 self.old result self.new }
        ensures does { RunDoes (λ env. asking asks) self.old result self.new }
    {
        match asks {
            InputTest::End => {
                let is_at_end = self.input.is_at_end();
                self.go_on_with(Ok(Ordinal::truth(is_at_end)))
            }
            InputTest::LineEnd { point } => match self.input.is_at_line_end() {
                Ok(is_so) => self.go_on_with(Ok(Ordinal::truth(is_so))),
                Err(fault) => Ok(Some(Ending::Input { point, fault })),
            },
        }
    }
}
