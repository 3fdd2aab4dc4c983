//! Interfaces: each has a device that shows the frames of a port.
ghost use Rattle.std.specs.Prelude.{◌≡◌, None};
ghost use Rattle.std.specs.Option.{option_map};
ghost use Rattle.sacn_machine.specs.Widgets.{widget_text};
ghost use Rattle.sacn_gateway.specs.Interfaces.{has_passed, is_due, frame_in, IsServed, Pairwise, due_before, earliest};

use crate::hearing::Notes;
use crate::limits::{LATER_WAIT, REFRESH, RETRY};
use sacn_machine::{Device, DeviceFault, Offer, Took, is_packet_of, widget_packet};
use sacn_node::PortFrame;
use sacn_packets::FRAME_OCTETS;

/// A device that shows the frames of a port, by its name, and the latest packet that it was offered.
#[derive(Drop)]
pub struct Interface<'a, D> {
    port: u8,
    name: &'a str,
    device: D,
    latest: Option<Offer>,
    // The fault that was noted last; none where it worked since.
    noted: Option<DeviceFault>,
}

impl<'a, D: Device> Interface<'a, D> {
    /// An interface that was offered nothing yet.
    pub fn new(port: u8, name: &'a str, device: D) -> Interface<'a, D>
        ensures port { result.port ≡ port }
        ensures device { result.device ≡ device }
        ensures latest { result.latest ≡ None }
    {
        Interface {
            port,
            name,
            device,
            latest: None,
            noted: None,
        }
    }

    /// Its device.
    pub fn device(&self) -> &D
        ensures { result.now ≡ self.now.device }
    {
        &self.device
    }
}

/// Whether at a reading so many milliseconds have passed since another.
fn has_passed(wait: u64, since: u64, now: u64) -> bool
    ensures { result ≡ has_passed wait since now }
{
    now.saturating_sub(since) >= wait
}

/// Whether the packet of a frame is due after the latest offer.
fn is_due(latest: &Option<Offer>, now: u64, frame: &[u8; FRAME_OCTETS]) -> bool
    ensures { result ≡ is_due latest.now now (widget_text frame.now) }
{
    match latest {
        None => true,
        Some(offer) => match offer.took {
            Took::Whole => {
                !is_packet_of(&offer.packet, frame) || has_passed(REFRESH, offer.now, now)
            }
            Took::Later => true,
            Took::Failed(_) => has_passed(RETRY, offer.now, now),
        },
    }
}

/// The frame of a port; None where there is no such port, or it wasn't looked at.
fn frame_of(ports: &[PortFrame], port: u8) -> Option<&[u8; FRAME_OCTETS]>
    ensures { option_map (λ f. f.now) result ≡ frame_in port ports.now }
{
    for one in ports {
        if one.port == port {
            return one.last.as_ref();
        }
    }
    None
}

/// Notes what became of a device, where that is something else than what was noted before.
fn note<N: Notes>(
    notes: &mut N,
    port: u8,
    name: &str,
    noted: &mut Option<DeviceFault>,
    took: Took,
) {
    let fault = match took {
        Took::Whole => None,
        Took::Later => return,
        Took::Failed(fault) => Some(fault),
    };
    if *noted != fault {
        notes.note_interface(port, name, fault);
        *noted = fault;
    }
}

/// Offers an interface the packet of its port's frame, where it is due.
fn serve<D: Device, N: Notes>(
    interface: &mut Interface<'_, D>,
    now: u64,
    ports: &[PortFrame],
    notes: &mut N,
)
    ensures { IsServed D.told now ports.now interface.old interface.new }
{
    let Some(frame) = frame_of(ports, interface.port) else {
        return;
    };
    if is_due(&interface.latest, now, frame) {
        let packet = widget_packet(frame);
        let took = interface.device.take(now, &packet);
        interface.latest = Some(Offer { now, packet, took });
        note(
            notes,
            interface.port,
            interface.name,
            &mut interface.noted,
            took,
        );
    }
}

/// Offers each interface the packet of its port's frame, where it is due.
pub(crate) fn serve_interfaces<D: Device, N: Notes>(
    interfaces: &mut [Interface<'_, D>],
    now: u64,
    ports: &[PortFrame],
    notes: &mut N,
)
    ensures { Pairwise (IsServed D.told now ports.now) interfaces.old interfaces.new }
{
    for interface in interfaces.iter_mut() {
        serve(interface, now, ports, notes);
    }
}

/// The moment up to which may be waited after an offer: no later than when the next one is due.
fn wake_after(latest: &Option<Offer>, now: u64, wake: u64) -> u64
    ensures { result ≡ due_before latest.now now wake }
{
    match latest {
        None => wake,
        Some(offer) => match offer.took {
            Took::Whole => wake.min(offer.now.saturating_add(REFRESH)),
            Took::Later => wake.min(now.saturating_add(LATER_WAIT)),
            Took::Failed(_) => wake.min(offer.now.saturating_add(RETRY)),
        },
    }
}

/// The moment up to which may be waited: no later than when the next packet of an interface is due.
pub(crate) fn first_wake<D: Device>(interfaces: &[Interface<'_, D>], now: u64, wake: u64) -> u64
    ensures { result ≡ earliest interfaces.now now wake }
{
    let mut wake = wake;
    for interface in interfaces {
        wake = wake_after(&interface.latest, now, wake);
    }
    wake
}
