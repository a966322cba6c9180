//! From texts to tokens, from tokens to trees, and from trees to texts.

mod built;
mod printed;
mod read;
mod scanned;
