// What a program computes with.

use hv_items::Items;

/// A value: a tree of numbers, truth values, structs, arrays and functions.
#[derive(Drop)]
pub enum Value {
    Int(i64),
    Bool(bool),
    Struct(Items<Value>),
    Array(Items<Value>),
    /// The number of a body, and the captures.
    Fun(u32, Items<Value>),
}

/// A step from a value to a part of it.
#[derive(Clone, Copy, Debug, PartialEq, Eq)]
pub enum PathStep {
    /// A field of a struct, by its number from 0.
    Field(u32),
    /// An element of an array, by its number from 0.
    At(u32),
}

/// Where the leaves of a slot stand.
#[derive(Drop)]
pub enum Shape {
    /// Anything but a struct with parts.
    Leaf,
    /// A struct's parts; without any it counts as a leaf.
    Struct(Items<Shape>),
}
