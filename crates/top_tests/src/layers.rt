//! Layers that are handed in: which call makes the layer for which words.
//! This project's own.
use crate::call::{call, call_over, folder_of};
use crate::case::parted;
use crate::replay::{WRONG_CELL, WRONG_CELL_TEXT};
use clocked_layer::Clocked;
use distributed_layer::Distributed;
use event_queue::{First, Last};
use example_plans::MOTOR;
use rcp_base::{MemSink, Memory};
use rcp_model::Plan;
use rcp_top::Layers;
use replica_layer::Replicated;
use std::alloc::Global;
use std::process::Abort;
use std::test::Fail;

// A call that makes a layer.
#[derive(Clone, Copy, PartialEq, Eq)]
enum Maker {
    Rs,
    Ds,
    Da,
    DaLast,
}

// The shipped layers, all but the one that this call makes.
#[derive(Clone, Copy)]
struct AllBut(Maker);

impl Layers for AllBut {
    type Rs = Replicated;

    type Ds = Distributed;

    type Da = Clocked<First>;

    type DaLast = Clocked<Last>;

    fn rs(&mut self, alloc: Global, plan: &Plan) -> Result<Replicated, Memory> {
        match self.0 {
            Maker::Rs => Err(Memory),
            _ => Replicated::new(alloc, plan),
        }
    }

    fn ds(&mut self, alloc: Global, plan: &Plan) -> Result<Distributed, Memory> {
        match self.0 {
            Maker::Ds => Err(Memory),
            _ => Distributed::new(alloc, plan),
        }
    }

    fn da(&mut self, alloc: Global, plan: &Plan) -> Result<Clocked<First>, Memory> {
        match self.0 {
            Maker::Da => Err(Memory),
            _ => Clocked::new(alloc, plan, First),
        }
    }

    fn da_last(&mut self, alloc: Global, plan: &Plan) -> Result<Clocked<Last>, Memory> {
        match self.0 {
            Maker::DaLast => Err(Memory),
            _ => Clocked::new(alloc, plan, Last),
        }
    }
}

// The words of forms, and the call that makes the layer of those that run replicas.
const FORMS: &str = "replay T J rs => rs
replay T J ds => ds
replay T J => da
replay T J da => da
events T J first => da
events T J last => da_last
summary T J => da
ideal T J => none
check T => none
gen T 7 4 => none";

fn maker_named(name: &str) -> Option<Maker> {
    match name {
        "rs" => Some(Maker::Rs),
        "ds" => Some(Maker::Ds),
        "da" => Some(Maker::Da),
        "da_last" => Some(Maker::DaLast),
        _ => None,
    }
}

// The status for the words of a line where one of the layers is not to be had, and the text.
fn run_without(alloc: Global, line: &str, without: Maker) -> Result<(&'static str, MemSink), Fail> {
    let mut folder = folder_of(alloc, MOTOR.as_bytes(), WRONG_CELL.as_bytes())?;
    let mut out = MemSink::new(alloc);
    let status = call_over(alloc, line, &mut folder, &mut out, &mut AllBut(without))?;
    Ok((status, out))
}

// The text of the shipped program for these words.
fn shipped_text(alloc: Global, line: &str) -> Result<MemSink, Fail> {
    let mut folder = folder_of(alloc, MOTOR.as_bytes(), WRONG_CELL.as_bytes())?;
    let mut out = MemSink::new(alloc);
    let _status = call(alloc, line, &mut folder, &mut out)?;
    Ok(out)
}

fn check_form(rt: &impl Abort, alloc: Global, form: &str, without: Maker) -> Result<(), Fail> {
    let (line, name) = parted(form);
    let (status, out) = run_without(alloc, line, without)?;
    if maker_named(name) == Some(without) {
        assert_eq!(rt; status, "1", "{line}");
        return Ok(());
    }
    assert_eq!(rt; status, "0", "{line}");
    let due = shipped_text(alloc, line)?;
    assert_eq!(rt; out.bytes(), due.bytes(), "{line}");
    if line.starts_with("replay ") {
        assert_eq!(rt; out.bytes(), WRONG_CELL_TEXT.as_bytes(), "{line}");
    }
    Ok(())
}

#[test]
fn a_form_makes_its_own_layer_alone(rt: HostRuntime) -> Result<(), Fail> {
    for without in [Maker::Rs, Maker::Ds, Maker::Da, Maker::DaLast] {
        for form in FORMS.lines() {
            check_form(&rt, rt.alloc(), form, without)?;
        }
    }
    Ok(())
}
