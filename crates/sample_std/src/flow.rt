use crate::CompactForm;
use data_format::{Fault, FlowHead, HeadForm, Port, SampleBody, SourceId};
use xdr_words::{Cursor, Item, Out, OutFull, write_run};

/// A flow sample in the compact form, format 1 of the standard (sFlow Version 5, section 5): its head, the frames of
/// its records, and the bytes behind them. Contracts see these three.
pub type FlowSample<'a> = SampleBody<'a, FlowHead, CompactForm>;

impl HeadForm<FlowHead> for CompactForm {
    ghost use Rattle.data_format.specs.declared.heads.Form.TheVariants.{Compact};
    ghost use Rattle.data_format.specs.Samples.{IsFlowHead, flow_members, flow_trees};

    ghost members = { flow_members Compact };

    ghost trees = { flow_trees Compact };

    ghost fits = { IsFlowHead Compact };

    // Sequence number, source, rate, pool, drops, input and output.
    #[inline(always)]
    fn take(cursor: &mut Cursor<'_>) -> Result<FlowHead, Fault> {
        let mut next = cursor.fork();
        let head = FlowHead {
            sequence: next.word()?,
            source: SourceId::from_compact(next.word()?),
            rate: next.word()?,
            pool: next.word()?,
            drops: next.word()?,
            input: Port::from_compact(next.word()?),
            output: Port::from_compact(next.word()?),
        };
        *cursor = next;
        Ok(head)
    }

    #[inline(always)]
    fn put(head: &FlowHead, out: &mut Out<'_>) -> Result<(), OutFull> {
        let source = head.source.compact().unwrap();
        let input = head.input.compact().unwrap();
        let output = head.output.compact().unwrap();
        let items = [
            Item::Word(head.sequence),
            Item::Word(source),
            Item::Word(head.rate),
            Item::Word(head.pool),
            Item::Word(head.drops),
            Item::Word(input),
            Item::Word(output),
        ];
        write_run(out, &items, &[])
    }
}
