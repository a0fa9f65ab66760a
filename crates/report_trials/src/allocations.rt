use crate::programs::{Told, run};
use std::test::Fail;

// A program of every form, in small, and its certificate.
const EVERY_FORM: &str = "program p(output); const s = 'it''s'; type t = (one, two); u = 'a'..'z';
    var x, y: integer; b: boolean; c: char; d: t; e: u;
    function f(m: integer): integer; begin f := m mod 10 + 1 end;
    procedure q(var v: integer; w: integer); begin v := w end;
    begin
      x := 7 div 2; y := -x + sqr(x) * abs(3) mod 5;
      b := not (x < y) or odd(x) and true;
      begin write(x:3, b); ; writeln(y:x, b:2) end;
      if b then x := 2 else x := 9;
      while x < 3 do x := x + 1;
      repeat y := x until true;
      for y := 1 to 2 do case y of 1: x := 4; 2: x := y + 3 end;
      write(x:2); q(x, f(x)); write(x:2);
      c := chr(ord('a') + 1); d := pred(succ(one)); e := succ(c);
      if (s > 'is a') or ('ab' < 'ac') then write(s:6, e, c:2, ord(d):2)
    end.";

const CLAIMS: &str = "pcert 1
proc 0
loop 0
change v0
loop 1
change v1
loop 2
change v0
fact range v0 3 2147483647
fact defined v0
proc 2
alias v0 v8
change v8
";

// By hand: x is 3; sqr(3) * abs(3) is 27 and mod 5 gives 2, so y is -1; 3 < -1 is false, so b is true. Then x is 2, and
// 3 behind the while; the for makes it 4 and then 5, and q makes it f(5), which is 6. At last c is 'b', d is one, whose
// number is 0, and e is 'c'.
const WRITTEN: &str = "  3 true -1tr\n 5 6  it'sc b 0";

// Whether a run that had ample memory did what it should, and one that had not said so and wrote nothing else.
fn is_as_it_should(told: &Told) -> bool {
    let (output, errors) = (told.output.as_slice(), told.errors.as_slice());
    match told.status {
        0 => errors.is_empty() && output == WRITTEN.as_bytes(),
        status => status == 3 && is_want_of_memory(errors) && output.is_empty(),
    }
}

// Whether this tells that an allocation was refused, be it while a file was read.
fn is_want_of_memory(errors: &[u8]) -> bool {
    errors == b"no memory\n".as_slice() || errors.starts_with(b"cannot read p.".as_slice())
}

// With ample memory the program runs. With an allocation refused, as by
// `rt try --test --fail-alloc N -- a_refused_allocation_is_want_of_memory`, the program says `no memory` and nothing
// else is written.
#[test]
fn a_refused_allocation_is_want_of_memory(rt: HostRuntime) -> Result<(), Fail> {
    let alloc = rt.alloc();
    let (Ok(output), Ok(errors)) = (Vec::with_capacity(alloc, 64), Vec::with_capacity(alloc, 64))
    else {
        return Ok(());
    };
    let (source, certificate) = (EVERY_FORM.as_bytes(), CLAIMS.as_bytes());
    assert!(rt; is_as_it_should(&run(alloc, source, certificate, output, errors)));
    Ok(())
}
