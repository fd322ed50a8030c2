//! A law by which several collectors may part the agents among them. Items have the latest first.

ghost use Rattle.std.specs.Prelude.{◌≡◌, ℕ, Bool, List, map};
ghost use Rattle.std.specs.List.{filter};
ghost use Rattle.wire_spec.specs.Heads.{AgentAddress};
ghost use Rattle.books_spec.specs.declared.limits.Limits.{Limits};
ghost use Rattle.books_spec.specs.Items.{Item};
ghost use Rattle.books_spec.specs.Books.{listed_streams, StreamBooks, stream_books};
ghost use Rattle.books_spec.specs.Parting.{of_agents, ListsAll, NamedLine, named_lines};

/// A collector of some agents alone, with room of its own, shows of their streams and sources what one of all agents
/// shows of them, in the same order and but for the numbers of streams, where neither leaves a stream or a source
/// unlisted.
pub fn collectors_may_part_the_agents()
    ensures streams { (agents : AgentAddress → Bool) (l : Limits) (streams sources : ℕ) (items : List Item) →
        let m = record l { streams = streams; sources = sources } in let some = of_agents agents items in
        ListsAll l items → ListsAll m some
        → map (stream_books m some) (listed_streams m some)
        ≡ filter (λ (b : StreamBooks). agents b.stream.agent) (map (stream_books l items) (listed_streams l items)) }
    ensures sources { (agents : AgentAddress → Bool) (l : Limits) (streams sources : ℕ) (items : List Item) →
        let m = record l { streams = streams; sources = sources } in let some = of_agents agents items in
        ListsAll l items → ListsAll m some
        → named_lines m some ≡ filter (λ (line : NamedLine). agents line.source.stream.agent) (named_lines l items) }
{}
