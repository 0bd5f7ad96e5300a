//! Graphs of which the cases of a file share a part.
use serde_json::{Map, Value};
use std::alloc::{AllocError, Global};

/// The members of an object.
pub(crate) type Members = Map<String, Value>;

// Puts a value under a name, in place of what stands there.
fn put(name: &String, value: Value, both: &mut Members) -> Result<(), AllocError> {
    match both.insert(name.clone()?, value) {
        Ok(_) => Ok(()),
        Err(_) => Err(AllocError),
    }
}

// Puts these members over those that stand there.
fn put_all(members: &Members, both: &mut Members) -> Result<(), AllocError> {
    for (name, value) in members.iter() {
        put(name, value.clone()?, both)?;
    }
    Ok(())
}

// Members with others over them: of two that have a name the one above counts.
fn members_over(alloc: Global, below: &Members, above: &Members) -> Result<Members, AllocError> {
    let mut both = Map::new(alloc);
    put_all(below, &mut both)?;
    put_all(above, &mut both)?;
    Ok(both)
}

fn add_items(items: &[Value], both: &mut Vec<Value>) -> Result<(), AllocError> {
    for value in items {
        both.push(value.clone()?)?;
    }
    Ok(())
}

// Items with others behind them.
fn items_behind(alloc: Global, first: &[Value], last: &[Value]) -> Result<Vec<Value>, AllocError> {
    let mut both = Vec::new(alloc);
    add_items(first, &mut both)?;
    add_items(last, &mut both)?;
    Ok(both)
}

// A member with one over it: an object has the members of both, a list the items of both, and else the one above counts.
fn value_over(alloc: Global, below: Option<&Value>, above: &Value) -> Result<Value, AllocError> {
    match (below, above) {
        (Some(Value::Object(below)), Value::Object(above)) => {
            Ok(Value::Object(members_over(alloc, below, above)?))
        }
        (Some(Value::Array(below)), Value::Array(above)) => Ok(Value::Array(items_behind(
            alloc,
            below.as_slice(),
            above.as_slice(),
        )?)),
        _ => above.clone(),
    }
}

// Lays each member above over the one of its name below, and puts it.
fn lay_all(
    alloc: Global,
    below: &Members,
    above: &Members,
    both: &mut Members,
) -> Result<(), AllocError> {
    for (name, value) in above.iter() {
        put(
            name,
            value_over(alloc, below.get(name.as_str()), value)?,
            both,
        )?;
    }
    Ok(())
}

/// A graph's members with others laid over them. Where both have an object under a name it has the members of both, of
/// which those above count; where both have a list, the items above come behind those below.
pub(crate) fn laid_over(
    alloc: Global,
    below: &Members,
    above: &Members,
) -> Result<Members, AllocError> {
    let mut both = Map::new(alloc);
    put_all(below, &mut both)?;
    lay_all(alloc, below, above, &mut both)?;
    Ok(both)
}
