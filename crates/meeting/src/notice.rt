// What a meeting is about.
use agenda::agenda::Agenda;
use message::text::ShortText;
use register::reference::Reference;

#[derive(Drop)]
pub(crate) struct Notice {
    pub(crate) event: Reference,
    pub(crate) isin: ShortText,
    pub(crate) agenda: Agenda,
}
