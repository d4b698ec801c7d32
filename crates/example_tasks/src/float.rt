//! Floats as numbers.
use anyhow::{Result, bail};
use std::alloc::Global;
use toml_edit::Value;

/// Returns a float as the nearest `f64`.
pub fn float_in(alloc: Global, value: &Value) -> Result<f64> {
    let Some(float) = value.as_float_text() else {
        bail!("not a float");
    };
    let digits = float.as_str().replace(alloc, '_', "")?;
    Ok(fast_float::parse(digits.as_str())?)
}
