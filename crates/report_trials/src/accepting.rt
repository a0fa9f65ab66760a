//! What the analyser lets go of a certificate that the checker refuses.

use analyser::accepting::accepted;
use certificate::{read, write};
use report::compile::compile;
use std::test::Fail;

// Behind the loop i is 10, so all elements have a value.
const SOURCE: &str = "program p(output); var a: array [1..9] of integer; i, n: integer;
    begin
      n := 5; i := 1;
      while i <= 9 do begin a[i] := i; i := i + 1 end;
      write(a[n])
    end.";

// At the head of the loop i is 1 and n is 5, so n isn't at most i.
const CLAIMS: &str = "pcert 1
proc 0
loop 0
change v0
change v1
fact range v1 1 10
fact defined v0 1 v1-1
fact order v2 v1 0
";

const WITHOUT_ORDER: &str = "pcert 1
proc 0
loop 0
change v0
change v1
fact range v1 1 10
fact defined v0 1 v1-1
";

#[test]
fn a_false_order_leaves_ranges_and_stretches(rt: HostRuntime) -> Result<(), Fail> {
    assert!(rt; leaves(&rt, SOURCE, CLAIMS, WITHOUT_ORDER, 1)?);
    Ok(())
}

// Two loops fill an array and read it; a third one, between them, counts down.
const THREE: &str = "program p(input, output); var a: array [1..9] of integer; i, n, m: integer;
    procedure show(k: integer); begin write(a[k]) end;
    begin
      read(n, m);
      if (n >= 1) and (n <= 9) then begin
        for i := 1 to n do a[i] := i;
        while m > 0 do m := m - 1;
        for i := 1 to n do show(i)
      end
    end.";

// No order of n and m is known, but orders and stretches of the other places are given.
const FALSE_BETWEEN: &str = "pcert 2
proc 0
loop 0
change v0
fact defined v0 1 v1-1
loop 1
change v3
fact defined v0 1 v2+0
fact order v2 v3 0
proc 1
entry range v4 1 9
entry defined v0 1 v2+0
entry order v4 v2 0
";

const WITHOUT_BETWEEN: &str = "pcert 2
proc 0
loop 0
change v0
fact defined v0 1 v1-1
loop 1
change v3
fact defined v0 1 v2+0
proc 1
entry range v4 1 9
entry defined v0 1 v2+0
entry order v4 v2 0
";

#[test]
fn a_false_order_leaves_all_of_other_places(rt: HostRuntime) -> Result<(), Fail> {
    assert!(rt; leaves(&rt, THREE, FALSE_BETWEEN, WITHOUT_BETWEEN, 1)?);
    Ok(())
}

// The element at 9 has no value yet where the first loop is entered. Once that isn't claimed, the routine isn't given
// its stretch either, and its order goes before that.
const FALSE_STRETCH: &str = "pcert 2
proc 0
loop 0
change v0
fact range v2 1 9
fact defined v0 1 9
fact order v2 v2 0
loop 1
change v3
fact order v2 v2 0
proc 1
entry range v4 1 9
entry defined v0 1 9
entry order v4 v2 0
";

const WITHOUT_STRETCHES: &str = "pcert 2
proc 0
loop 0
change v0
fact range v2 1 9
loop 1
change v3
fact order v2 v2 0
proc 1
entry range v4 1 9
";

#[test]
fn stretches_go_behind_orders_and_from_place_to_place(rt: HostRuntime) -> Result<(), Fail> {
    assert!(rt; leaves(&rt, THREE, FALSE_STRETCH, WITHOUT_STRETCHES, 4)?);
    Ok(())
}

// Whether that is left of a certificate, behind so many refusals.
fn leaves(
    rt: &HostRuntime,
    source: &str,
    claims: &str,
    wanted: &str,
    count: u32,
) -> Result<bool, Fail> {
    let alloc = rt.alloc();
    let compiled = compile(alloc, source.as_bytes(), None)?;
    let claims = read(alloc, claims.as_bytes())?;
    let mut refusals = 0;
    let left = accepted(alloc, &compiled.tree, claims, &mut refusals)?;
    Ok(refusals == count && write(alloc, &left.certificate)?.as_slice() == wanted.as_bytes())
}
