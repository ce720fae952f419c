use hv_decls::StaticPath;

/// What a body does, as far as the rules ask. A number is that of a local of the body.
#[derive(Drop)]
pub enum FlowEvent {
    /// The entry of a body, before its first event.
    Entry,
    /// The local has no initialised leaf.
    Declare(u32),
    /// The place gets a value.
    Init(StaticPath),
    /// The place is read and copied.
    Use(StaticPath),
    /// The place is moved out.
    Move(StaticPath),
    /// An access that reads the place begins.
    OpenRead(StaticPath),
    /// An access that changes the place begins.
    OpenWrite(StaticPath),
    /// An access that fills the place begins.
    OpenSet(StaticPath),
    /// Of the accesses that calls opened, the one opened last ends.
    Close,
    /// A task is begun under the handle.
    Spawn(u32),
    /// The handle's task is awaited.
    Await(u32),
    /// The body is left.
    Return,
    /// All locals from this one on end, and with them the accesses of these bindings.
    ScopeEnd(u32),
}
