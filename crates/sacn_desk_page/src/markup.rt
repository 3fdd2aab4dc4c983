//! The page: one text, with its style and its script. It asks no server but its own.

mod body;
mod script;
mod style;

use crate::markup::body::BODY;
use crate::markup::script::SCRIPT;
use crate::markup::style::STYLE;
use std::alloc::AllocError;

const HEAD: &str = r##"<!doctype html>
<html lang="en">
<head>
<meta charset="utf-8">
<meta name="viewport" content="width=device-width, initial-scale=1">
<meta name="color-scheme" content="dark">
<title>sacn desk</title>
<link rel="icon" href="data:image/svg+xml,%3Csvg xmlns='http://www.w3.org/2000/svg' viewBox='0 0 16 16'%3E%3Crect width='16' height='16' rx='3' fill='%23222'/%3E%3Cpath d='M4 3l9 5-9 5z' fill='%23fc6'/%3E%3C/svg%3E">
"##;

/// Writes the page that a browser is given.
///
/// Errors: a growth was refused.
pub fn push_page(text: &mut String) -> Result<(), AllocError> {
    for part in &[HEAD, STYLE, BODY, SCRIPT] {
        text.push_str(part)?;
    }
    Ok(())
}
